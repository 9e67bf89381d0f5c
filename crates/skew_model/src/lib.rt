//! The skew between a sender's clock and the arrivals of its packets, by definitions on the list of
//! heights: the original packets of a segment that were greater than all before them. The definitions
//! stand in `specs/Skew.antt`; the code that answers them with a window is another crate's.
#![tactic(auto)]

ghost use Rattle.std.specs.Prelude.{◌≡◌, ℕ, List};
ghost use Rattle.rtp_units.specs.declared.Mode.TheVariants.{Plain};
ghost use Rattle.skew_model.specs.Skew.{Height, estimate, HasNoSkew};

/// In mode plain the skew is 0 after any list of heights.
pub fn plain_has_no_skew()
    ensures { (rate : ℕ) (heights : List Height) → HasNoSkew (estimate rate Plain heights) }
{}
