//! Laws of the language, for the crates above. The functions do nothing.
ghost use Rattle.std.specs.Prelude.{◌≢◌, ◌∷◌, ℕ, List, Ok};
ghost use Rattle.script_lang.specs.Contents.{Contents};
ghost use Rattle.script_lang.specs.Grammar.{read_script};

/// No script begins with the magic number of a capture in the pcap format: not with 0xa1 or 0xd4, and not
/// with the first three bytes of 0xa1b23c4d in little-endian order.
pub fn begins_no_capture()
    ensures big { (xs : List ℕ) (c : Contents) → read_script (161 ∷ xs) ≢ Ok c }
    ensures little { (xs : List ℕ) (c : Contents) → read_script (212 ∷ xs) ≢ Ok c }
    ensures nano { (xs : List ℕ) (c : Contents) → read_script (77 ∷ 60 ∷ 178 ∷ xs) ≢ Ok c }
{}
