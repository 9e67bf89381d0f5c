//! Laws of descriptions, for the crates above. The functions do nothing.
ghost use Rattle.std.specs.Prelude.{◌≢◌, ◌∷◌, ℕ, List, Ok};
ghost use Rattle.script_lang.specs.Contents.{Contents};
ghost use Rattle.sdp_profile.specs.Scripts.{described_script};

/// No description begins a capture: not with a magic number of the pcap format, nor with the type
/// of a section header of the pcapng format.
pub fn description_begins_no_capture()
    ensures big { (xs times : List ℕ) (c : Contents) → described_script (161 ∷ xs) times ≢ Ok c }
    ensures little { (xs times : List ℕ) (c : Contents) → described_script (212 ∷ xs) times ≢ Ok c }
    ensures nano { (xs times : List ℕ) (c : Contents)
        → described_script (77 ∷ 60 ∷ 178 ∷ xs) times ≢ Ok c }
    ensures section { (xs times : List ℕ) (c : Contents)
        → described_script (10 ∷ 13 ∷ 13 ∷ 10 ∷ xs) times ≢ Ok c }
{}

/// No text with settings and timed lines begins a capture.
pub fn times_begin_no_capture()
    ensures big { (sdp xs : List ℕ) (c : Contents) → described_script sdp (161 ∷ xs) ≢ Ok c }
    ensures little { (sdp xs : List ℕ) (c : Contents) → described_script sdp (212 ∷ xs) ≢ Ok c }
    ensures nano { (sdp xs : List ℕ) (c : Contents)
        → described_script sdp (77 ∷ 60 ∷ 178 ∷ xs) ≢ Ok c }
    ensures section { (sdp xs : List ℕ) (c : Contents)
        → described_script sdp (10 ∷ 13 ∷ 13 ∷ 10 ∷ xs) ≢ Ok c }
{}
