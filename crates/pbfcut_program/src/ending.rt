//! How a run that failed is reported.

ghost use Rattle.std.specs.Prelude.{◌≡◌, ◌⊎◌, ◌∷◌, []};
ghost use Rattle.pbf_frame.specs.declared.stop.Stop.TheVariants as stop;
ghost use Rattle.pbfcut_cli.specs.Endings.{ending_status, message_of, program_name};
ghost use Rattle.pbfcut_cli.specs.declared.endings.Ending.{Ending};
ghost use Rattle.pbfcut_cli.specs.declared.endings.Ending.TheVariants as ending;
ghost use Rattle.pbfcut_program.specs.Events.{advised, told, then_all, then_one};

use crate::host::Host;
use pbf_frame::Stop;
use pbfcut_cli::{Command, Ending, Program, status};
use std::alloc::Global;

/// What is reported if there is no memory for the text of an ending.
fn memory_line(program: Program) -> &'static str
    ensures { result.now ≡ message_of (program_name program) (ending.Stopped stop.Memory) }
{
    match program {
        Program::Pbfcut => "pbfcut: out of memory\n",
        Program::Pbfcutz => "pbfcutz: out of memory\n",
    }
}

/// Tells how a run ended, and returns its exit status; or, if there is no memory for that, reports that.
fn tell_ending<H: Host>(alloc: Global, host: &mut H, program: Program, how: &Ending) -> u8
    ensures { (shown : Ending)
        × (H.log host.new ≡ then_one (H.log host.old) (told (message_of (program_name program) shown)))
        × (result ≡ ending_status shown)
        × ((shown ≡ how.now) ⊎ (shown ≡ ending.Stopped stop.Memory)) }
{
    match how.message(alloc, program) {
        Ok(text) => {
            host.tell(text.as_str().as_bytes());
            how.status()
        }
        Err(_) => {
            host.tell(memory_line(program).as_bytes());
            status(&Stop::Memory)
        }
    }
}

/// Tells how words that are no command ended, and then, on a terminal, what to do next. Returns the exit status.
pub fn report<H: Host>(alloc: Global, host: &mut H, program: Program, how: &Ending) -> u8
    // The line and the status are those of the ending, or that there is no memory.
    ensures { (shown : Ending) × (H.log host.new ≡ then_all (H.log host.old)
        (told (message_of (program_name program) shown) ∷ advised ∷ []))
        × (result ≡ ending_status shown)
        × ((shown ≡ how.now) ⊎ (shown ≡ ending.Stopped stop.Memory)) }
{
    let status = tell_ending(alloc, host, program, how);
    host.advise_words(how);
    status
}

/// The same of a command.
pub(crate) fn report_command<H: Host>(
    alloc: Global,
    host: &mut H,
    program: Program,
    command: &Command<'_>,
    how: &Ending,
) -> u8
    ensures { (shown : Ending) × (H.log host.new ≡ then_all (H.log host.old)
        (told (message_of (program_name program) shown) ∷ advised ∷ []))
        × (result ≡ ending_status shown)
        × ((shown ≡ how.now) ⊎ (shown ≡ ending.Stopped stop.Memory)) }
{
    let status = tell_ending(alloc, host, program, how);
    host.advise(command, how);
    status
}
