//! Laws of a table. Each function's contract holds of every list of calls; the functions do nothing.
ghost use Rattle.source_table.specs.Answers.{IsOneHearing, IsOneNaming};
ghost use Rattle.source_table.specs.History.{IsIsolated, IsNamedIfKept};
ghost use Rattle.source_table.specs.Probation.{IsRunLength};
ghost use Rattle.source_table.specs.Limits.{StayInRange, FitTheirFields};
ghost use Rattle.source_table.specs.Validity.{IsValidByRun, IsValidFromRun};

/// What a table tells of a source, its name included, is what the calls on that source alone leave, since it
/// was last added. Calls on other sources, and packets that were refused, change nothing of it. A source
/// that is not kept has no name.
pub fn isolated()
    ensures told { IsIsolated }
    ensures names { IsNamedIfKept }
{}

/// A run is as long as the newest numbers are consecutive modulo 2^16, counted up to 255.
pub fn counts_consecutive()
    ensures { IsRunLength }
{}

/// A source is valid from the first packet on at which its last packets, as many as this one needs, have
/// consecutive numbers modulo 2^16. Its counts begin with that packet.
pub fn valid_from_a_run()
    ensures kept { IsValidByRun }
    ensures answer { IsValidFromRun }
{}

/// A table has one answer to a packet but want of memory, and one to a name, and becomes one table:
/// those that the definitions name as functions.
pub fn tables_have_one_answer()
    ensures packet { IsOneHearing }
    ensures name { IsOneNaming }
{}

/// After at most 2^40 packets no count of a source comes near the end of 64 bits: it heard no more than
/// the table, and each of its numbers was at most 2999 above the greatest before. The share lost fits
/// 8 bits and the jitter 32.
pub fn counts_stay_small()
    ensures counts { StayInRange }
    ensures block { FitTheirFields }
{}
