// How a program ends.
ghost use Rattle.std.specs.Prelude.{◌≡◌, if◌then◌else◌, is_ok};
ghost use Rattle.std.specs.Process.{exit_status};

use std::fmt::Display;
use std::process::ExitCode;

// The status that a program ends with. Where it failed, the error stream says why.
pub fn exit_code<E: Display + Drop>(rt: &impl Eprint, ending: Result<(), E>) -> ExitCode
    ensures { exit_status result ≡ (if is_ok ending then 0 else 1) }
{
    match ending {
        Ok(()) => ExitCode::SUCCESS,
        Err(failure) => {
            let _ = rt.eprintln(failure);
            ExitCode::FAILURE
        }
    }
}
