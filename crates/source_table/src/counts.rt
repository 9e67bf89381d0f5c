//! What came of a valid source, and what was lost.
ghost use Rattle.std.specs.Prelude.{◌≡◌, ◌≤◌, ◌<◌, ◌^◌};
ghost use Rattle.source_table.specs.Ranges.{AreCountsOf};
ghost use Rattle.source_table.specs.Counting.{counts_begin, count_next, jump_next, expected_of, fraction_of, lost_of, counts_reported};

/// A number this far ahead of the greatest is in order.
const MAX_DROPOUT: u64 = 3000;

/// A number that is further ahead is late; between the two lies a jump.
const LAST_JUMP: u64 = 65436;

/// Packets of a valid source since its counts began.
#[derive(Clone, Copy, Debug, PartialEq, Eq, Drop)]
pub struct Counts {
    /// The number of the first.
    pub base: u64,
    /// The greatest number, extended by its cycles.
    pub greatest: u64,
    pub received: u64,
    /// The number of the last jump, if there was one.
    pub jump: Option<u16>,
    /// What was expected when the last block was made.
    pub prior_expected: u64,
    /// What was received when the last block was made.
    pub prior_received: u64,
}

impl Counts {
    /// Counts that begin with this packet.
    pub(crate) fn begin(seq: u16) -> Counts
        ensures { result ≡ counts_begin seq }
    {
        Counts {
            base: u64::from(seq),
            greatest: u64::from(seq),
            received: 1,
            jump: None,
            prior_expected: 0,
            prior_received: 0,
        }
    }

    /// Counts one packet more, and says whether it was counted.
    pub(crate) fn hear(&mut self, seq: u16) -> bool
        requires greatest { self.old.greatest < 2 ^ 63 }
        requires received { self.old.received < 2 ^ 63 }
        ensures counts { self.new ≡ (count_next self.old seq).counts }
        ensures counted { result ≡ (count_next self.old seq).counted }
    {
        let ahead = (u64::from(seq) + 65536 - self.greatest % 65536) % 65536;
        if ahead < MAX_DROPOUT {
            self.greatest += ahead;
            self.received += 1;
            return true;
        }
        if ahead > LAST_JUMP {
            self.received += 1;
            return true;
        }
        self.hear_jump(seq)
    }

    /// Two jumps to numbers that follow each other begin the counts anew.
    fn hear_jump(&mut self, seq: u16) -> bool
        ensures counts { self.new ≡ (jump_next self.old seq).counts }
        ensures counted { result ≡ (jump_next self.old seq).counted }
    {
        match self.jump {
            Some(last) if seq == last.wrapping_add(1) => {
                *self = Counts::begin(seq);
                true
            }
            _ => {
                self.jump = Some(seq);
                false
            }
        }
    }

    /// How many packets the numbers tell of.
    fn expected(self) -> u64
        requires base { self.base ≤ self.greatest }
        requires greatest { self.greatest < 2 ^ 63 }
        ensures { result ≡ expected_of self }
    {
        self.greatest - self.base + 1
    }

    /// Expected less received, held to 24 bits with a sign.
    pub(crate) fn lost(self) -> i32
        requires { AreCountsOf (2 ^ 40) self }
        ensures { result ≡ lost_of self }
    {
        let expected = self.expected();
        if expected >= self.received {
            (expected - self.received).min(0x7f_ffff) as i32
        } else {
            -((self.received - expected).min(0x80_0000) as i32)
        }
    }

    /// The share lost since the last block, in 256ths.
    pub(crate) fn fraction(self) -> u8
        requires { AreCountsOf (2 ^ 40) self }
        ensures { result ≡ fraction_of self }
    {
        let expected = self.expected().saturating_sub(self.prior_expected);
        let received = self.received.saturating_sub(self.prior_received);
        if expected <= received {
            return 0;
        }
        (u128::from(expected - received) * 256 / u128::from(expected)) as u8
    }

    /// The counts once a block was made.
    pub(crate) fn reported(self) -> Counts
        requires { AreCountsOf (2 ^ 40) self }
        ensures { result ≡ counts_reported self }
    {
        Counts {
            prior_expected: self.expected(),
            prior_received: self.received,
            ..self
        }
    }
}
