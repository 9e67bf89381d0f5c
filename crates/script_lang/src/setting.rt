//! The settings of a script.
ghost use Rattle.std.specs.Prelude.{◌≡◌};
ghost use Rattle.script_lang.specs.Settings.{defaults, mode_of, place_of, setting_of as setting_of_words, settings_list, settings_of, switch_of, with_setting};

use crate::fault::ScriptCause;
use crate::numbers::{number, ssrc, time};
use crate::text::spells;
use rtp_units::Mode;

/// The settings of a script. Times are nanoseconds, and always whole milliseconds.
#[derive(Clone, Copy, Debug, PartialEq, Eq, Drop)]
pub struct ScriptSettings {
    /// How long a packet may wait, 0 to 600 s.
    pub latency: u64,
    /// How the sender's clock is followed.
    pub mode: Mode,
    /// Lost packets are asked for.
    pub rtx: bool,
    /// From when a packet counts as missing to the first request, 0 to 60 s.
    pub rtx_delay: u64,
    /// Between requests for one packet, 1 ms to 60 s.
    pub rtx_retry: u64,
    /// The most requests for one packet.
    pub rtx_max: u8,
    /// How many packets out of order make a missing one count as such, 0 to 100. 0 is off.
    pub reorder: u16,
    /// How far a number may jump ahead, 1 to 30000.
    pub dropout: u16,
    /// How far a number may fall back, 0 to 1000.
    pub misorder: u16,
    /// How many consecutive packets make a source valid, 0 to 16.
    pub probation: u8,
    /// How many packets in a row end the wait at the start, 0 to 1000. 0 is off.
    pub faststart: u16,
    /// Between reports, 0 to 600 s. 0 is none.
    pub report: u64,
    /// After which silence a source is removed, 1 ms to 600 s.
    pub timeout: u64,
    /// How many packets are remembered for retransmission, 1 to 4096.
    pub history: u16,
    /// The program's own SSRC.
    pub ssrc: u32,
}

/// One setting, with its value.
#[derive(Clone, Copy, Debug, PartialEq, Eq, Drop)]
pub(crate) enum Setting {
    Latency(u64),
    Mode(Mode),
    Rtx(bool),
    RtxDelay(u64),
    RtxRetry(u64),
    RtxMax(u8),
    Reorder(u16),
    Dropout(u16),
    Misorder(u16),
    Probation(u8),
    Faststart(u16),
    Report(u64),
    Timeout(u64),
    History(u16),
    Ssrc(u32),
}

impl ScriptSettings {
    /// What holds where these are set.
    pub(crate) fn of(settings: &[Setting]) -> ScriptSettings
        ensures { result ≡ settings_of settings.now }
    {
        let mut all = ScriptSettings::default_values();
        for setting in settings {
            all = all.with(*setting);
        }
        all
    }

    /// Every setting, in the order of the names.
    pub(crate) fn list(&self) -> [Setting; 15]
        ensures { result ≡ settings_list self.now }
    {
        [
            Setting::Latency(self.latency),
            Setting::Mode(self.mode),
            Setting::Rtx(self.rtx),
            Setting::RtxDelay(self.rtx_delay),
            Setting::RtxRetry(self.rtx_retry),
            Setting::RtxMax(self.rtx_max),
            Setting::Reorder(self.reorder),
            Setting::Dropout(self.dropout),
            Setting::Misorder(self.misorder),
            Setting::Probation(self.probation),
            Setting::Faststart(self.faststart),
            Setting::Report(self.report),
            Setting::Timeout(self.timeout),
            Setting::History(self.history),
            Setting::Ssrc(self.ssrc),
        ]
    }

    // What holds where nothing is set.
    fn default_values() -> ScriptSettings
        ensures { result ≡ defaults }
    {
        ScriptSettings {
            latency: 200_000_000,
            mode: Mode::Slave,
            rtx: false,
            rtx_delay: 20_000_000,
            rtx_retry: 40_000_000,
            rtx_max: 3,
            reorder: 3,
            dropout: 3000,
            misorder: 100,
            probation: 2,
            faststart: 0,
            report: 0,
            timeout: 25_000_000_000,
            history: 256,
            ssrc: 1,
        }
    }

    fn with(self, setting: Setting) -> ScriptSettings
        ensures { result ≡ with_setting self setting }
    {
        let mut all = self;
        match setting {
            Setting::Latency(ns) => all.latency = ns,
            Setting::Mode(mode) => all.mode = mode,
            Setting::Rtx(on) => all.rtx = on,
            Setting::RtxDelay(ns) => all.rtx_delay = ns,
            Setting::RtxRetry(ns) => all.rtx_retry = ns,
            Setting::RtxMax(count) => all.rtx_max = count,
            Setting::Reorder(count) => all.reorder = count,
            Setting::Dropout(count) => all.dropout = count,
            Setting::Misorder(count) => all.misorder = count,
            Setting::Probation(count) => all.probation = count,
            Setting::Faststart(count) => all.faststart = count,
            Setting::Report(ns) => all.report = ns,
            Setting::Timeout(ns) => all.timeout = ns,
            Setting::History(count) => all.history = count,
            Setting::Ssrc(ssrc) => all.ssrc = ssrc,
        }
        all
    }
}

impl Setting {
    /// The setting that a name and a value make.
    #[tactic(auto, unfolding(crate::specs::Settings::setting_of))]
    pub fn of_words(name: &[u8], value: &[u8]) -> Result<Setting, ScriptCause>
        ensures { result ≡ setting_of_words name.now value.now }
    {
        if spells(name, "latency") {
            Ok(Setting::Latency(time(value, 0, 600_000)?))
        } else if spells(name, "mode") {
            Ok(Setting::Mode(mode(value)?))
        } else if spells(name, "rtx") {
            Ok(Setting::Rtx(switch(value)?))
        } else if spells(name, "rtx-delay") {
            Ok(Setting::RtxDelay(time(value, 0, 60_000)?))
        } else if spells(name, "rtx-retry") {
            Ok(Setting::RtxRetry(time(value, 1, 60_000)?))
        } else if spells(name, "rtx-max") {
            Ok(Setting::RtxMax(number(value, 0, 255)? as u8))
        } else if spells(name, "reorder") {
            Ok(Setting::Reorder(number(value, 0, 100)? as u16))
        } else if spells(name, "dropout") {
            Ok(Setting::Dropout(number(value, 1, 30_000)? as u16))
        } else if spells(name, "misorder") {
            Ok(Setting::Misorder(number(value, 0, 1000)? as u16))
        } else if spells(name, "probation") {
            Ok(Setting::Probation(number(value, 0, 16)? as u8))
        } else if spells(name, "faststart") {
            Ok(Setting::Faststart(number(value, 0, 1000)? as u16))
        } else if spells(name, "report") {
            Ok(Setting::Report(time(value, 0, 600_000)?))
        } else if spells(name, "timeout") {
            Ok(Setting::Timeout(time(value, 1, 600_000)?))
        } else if spells(name, "history") {
            Ok(Setting::History(number(value, 1, 4096)? as u16))
        } else if spells(name, "ssrc") {
            Ok(Setting::Ssrc(ssrc(value)?))
        } else {
            Err(ScriptCause::Word)
        }
    }

    /// The place of the setting's name in the list of all.
    pub fn place(&self) -> u8
        ensures { result ≡ place_of self.now }
    {
        match self {
            Setting::Latency(_) => 0,
            Setting::Mode(_) => 1,
            Setting::Rtx(_) => 2,
            Setting::RtxDelay(_) => 3,
            Setting::RtxRetry(_) => 4,
            Setting::RtxMax(_) => 5,
            Setting::Reorder(_) => 6,
            Setting::Dropout(_) => 7,
            Setting::Misorder(_) => 8,
            Setting::Probation(_) => 9,
            Setting::Faststart(_) => 10,
            Setting::Report(_) => 11,
            Setting::Timeout(_) => 12,
            Setting::History(_) => 13,
            Setting::Ssrc(_) => 14,
        }
    }
}

#[tactic(auto, unfolding(crate::specs::Settings::mode_of))]
fn mode(word: &[u8]) -> Result<Mode, ScriptCause>
    ensures { result ≡ mode_of word.now }
{
    if spells(word, "none") {
        Ok(Mode::Plain)
    } else if spells(word, "slave") {
        Ok(Mode::Slave)
    } else {
        Err(ScriptCause::Word)
    }
}

#[tactic(auto, unfolding(crate::specs::Settings::switch_of))]
fn switch(word: &[u8]) -> Result<bool, ScriptCause>
    ensures { result ≡ switch_of word.now }
{
    if spells(word, "on") {
        Ok(true)
    } else if spells(word, "off") {
        Ok(false)
    } else {
        Err(ScriptCause::Word)
    }
}
