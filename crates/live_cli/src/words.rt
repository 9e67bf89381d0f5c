//! The words of a command line that begins with `live`.
ghost use Rattle.std.specs.Prelude.{◌≡◌, option_map, string_bytes};
ghost use Rattle.live_cli.specs.Words.{form_of, form_view, live_of, texts};

/// What a command line asks for: the histories of a capture by a script, with the bytes of the
/// packets that leave or without.
#[derive(Clone, Copy)]
pub struct Asked<'a> {
    pub hex: bool,
    pub capture: &'a str,
    pub script: &'a str,
}

/// What these words ask for, where they have the form `live [-x] CAPTURE SCRIPT`. At most one of
/// the names is standard input.
pub fn asked_by(words: &[String]) -> Option<Asked<'_>>
    ensures { option_map form_view result ≡ form_of (texts words.now) }
{
    match words {
        [command, capture, script] => live(command, false, capture, script),
        [command, option, capture, script] => {
            if option.as_str() == "-x" {
                live(command, true, capture, script)
            } else {
                None
            }
        }
        _ => None,
    }
}

fn live<'a>(
    command: &String,
    hex: bool,
    capture: &'a String,
    script: &'a String,
) -> Option<Asked<'a>>
    ensures { option_map form_view result ≡ live_of (string_bytes command.now) hex
        (string_bytes capture.now) (string_bytes script.now) }
{
    let capture = capture.as_str();
    let script = script.as_str();
    if command.as_str() == "live" && !(capture == "-" && script == "-") {
        Some(Asked {
            hex,
            capture,
            script,
        })
    } else {
        None
    }
}
