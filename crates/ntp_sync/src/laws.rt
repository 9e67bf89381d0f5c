//! Laws of offsets. Each function's contract is a law; the functions do nothing.
ghost use Rattle.ntp_sync.specs.Answers.{IsOneList, IsTheFunction};

/// A CNAME has one list of offsets: the one that the definitions name as a function.
pub fn offsets_are_one_list()
    ensures one { IsOneList }
    ensures function { IsTheFunction }
{}
