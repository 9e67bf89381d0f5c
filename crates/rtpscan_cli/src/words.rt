//! The words of a command line.
ghost use Rattle.std.specs.Prelude.{◌≡◌, option_map};
ghost use Rattle.rtpscan_cli.specs.Words.{form_of, form_view, texts};

/// What a command line asks for.
#[derive(Clone, Copy)]
pub struct Asked<'a> {
    /// The script alone is wanted, without the lines of the streams.
    pub script_only: bool,
    /// The name of the capture.
    pub capture: &'a str,
}

/// What these words ask for, where they have a form: `CAPTURE` or `-s CAPTURE`.
pub fn asked_by(words: &[String]) -> Option<Asked<'_>>
    ensures { option_map form_view result ≡ form_of (texts words.now) }
{
    match words {
        [capture] => Some(Asked {
            script_only: false,
            capture: capture.as_str(),
        }),
        [option, capture] => {
            if option.as_str() == "-s" {
                Some(Asked {
                    script_only: true,
                    capture: capture.as_str(),
                })
            } else {
                None
            }
        }
        _ => None,
    }
}
