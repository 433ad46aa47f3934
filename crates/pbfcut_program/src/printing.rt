//! What is printed beside listings and texts: counts, digests and help.

ghost use Rattle.std.specs.Prelude.{◌≡◌, ◌∷◌, [], ℕ, List, IfOk, None, string_bytes};
ghost use Rattle.osm_text.specs.Digests.{digest_line};
ghost use Rattle.pbfcut_program.specs.Lines.{check_lines, counts_text, done_lines, file_lines, prints, unpacked_text};
ghost use Rattle.pbfcut_program.specs.declared.host.Screen.TheVariants as screen;
ghost use Rattle.pbfcut_program.specs.Telling.{Tells, TellsQuietly};

use crate::engine::{Engine, Halted, Report};
use crate::host::{Host, PrintFault, Screen};
use osm_text::{put_digest_line, put_hex};
use pbf_frame::Stop;
use pbf_pass::{Counts, Refusal};
use pbfcut_cli::{Ending, Files, Program};
use std::alloc::{AllocError, Global};

/// Prints a text.
pub(crate) fn print_text<H: Host>(host: &mut H, screen: Screen, text: &[u8]) -> Result<(), Ending>
    ensures { Tells (H.log host.old) (H.log host.new) (prints screen (text.now ∷ [])) result }
{
    match host.print(screen, text) {
        Ok(()) => Ok(()),
        Err(PrintFault::Failed) => Err(Ending::Stopped(Stop::Write)),
        Err(PrintFault::Closed) => Err(Ending::Closed),
    }
}

fn counts_line(alloc: Global, counts: Counts) -> Result<String, AllocError>
    ensures { IfOk result (λ text. string_bytes text ≡ counts_text counts) }
{
    let Counts {
        nodes,
        ways,
        relations,
    } = counts;
    format!(in alloc; "nodes {nodes} ways {ways} relations {relations}\n")
}

/// Prints the line of counts.
pub(crate) fn print_counts<H: Host>(
    alloc: Global,
    host: &mut H,
    screen: Screen,
    counts: Counts,
) -> Result<(), Ending>
    ensures { Tells (H.log host.old) (H.log host.new) (prints screen (counts_text counts ∷ [])) result }
{
    match counts_line(alloc, counts) {
        Ok(line) => print_text(host, screen, line.as_str().as_bytes()),
        Err(_) => Err(Ending::Stopped(Stop::Memory)),
    }
}

/// The line of a file and its digest, as `sha256sum` prints it.
fn digest_text(alloc: Global, digest: [u8; 32], path: &[u8]) -> Result<Vec<u8>, AllocError>
    ensures { IfOk result (λ line. line.items ≡ digest_line digest path.now) }
{
    let mut line = Vec::new(alloc);
    put_digest_line(&mut line, &digest, path)?;
    Ok(line)
}

/// Prints the line of a file and its digest.
pub(crate) fn print_digest<H: Host>(
    alloc: Global,
    host: &mut H,
    screen: Screen,
    digest: [u8; 32],
    path: &str,
) -> Result<(), Ending>
    ensures { Tells (H.log host.old) (H.log host.new)
        (prints screen (digest_line digest path.now ∷ [])) result }
{
    match digest_text(alloc, digest, path.as_bytes()) {
        Ok(line) => print_text(host, screen, &line),
        Err(_) => Err(Ending::Stopped(Stop::Memory)),
    }
}

/// The line of the digest of a file unpacked. It is a comment to `sha256sum -c`, since there is no such file.
fn unpacked_line(alloc: Global, digest: [u8; 32]) -> Result<Vec<u8>, AllocError>
    ensures { IfOk result (λ line. line.items ≡ unpacked_text digest) }
{
    let mut line = Vec::new(alloc);
    line.extend_from_slice(b"# unpacked ")?;
    put_hex(&mut line, &digest)?;
    line.push(b'\n')?;
    Ok(line)
}

/// Prints the digest of a file unpacked.
fn print_unpacked<H: Host>(
    alloc: Global,
    host: &mut H,
    screen: Screen,
    digest: [u8; 32],
) -> Result<(), Ending>
    ensures { Tells (H.log host.old) (H.log host.new)
        (prints screen (unpacked_text digest ∷ [])) result }
{
    match unpacked_line(alloc, digest) {
        Ok(line) => print_text(host, screen, &line),
        Err(_) => Err(Ending::Stopped(Stop::Memory)),
    }
}

/// The digests of a file: of its bytes, and of the raw file that they mean, if it isn't those bytes.
#[derive(Clone, Copy)]
pub(crate) struct Digested<'a> {
    pub(crate) path: &'a str,
    pub(crate) digest: [u8; 32],
    pub(crate) raw: Option<[u8; 32]>,
}

/// Prints the digest of a file, and that of the file unpacked, if it is.
pub(crate) fn print_file<H: Host>(
    alloc: Global,
    host: &mut H,
    screen: Screen,
    file: &Digested<'_>,
) -> Result<(), Ending>
    ensures { Tells (H.log host.old) (H.log host.new)
        (prints screen (file_lines file.now.digest file.now.raw file.now.path.now)) result }
{
    print_digest(alloc, host, screen, file.digest, file.path)?;
    match file.raw {
        Some(raw) => print_unpacked(alloc, host, screen, raw),
        None => Ok(()),
    }
}

/// What a refusal counts of IN: pbfcutz judges its bytes unpacked.
fn unit_of(program: Program) -> &'static str {
    match program {
        Program::Pbfcut => "bytes",
        Program::Pbfcutz => "unpacked bytes",
    }
}

/// The line of a refusal: how many bytes of IN were read, and their digest. The fault is the first of every file that begins with these
/// bytes; or IN ended there, and it is the first of the file that has these bytes and no more.
fn refusal_line(
    alloc: Global,
    program: Program,
    refusal: &Refusal,
    input: &str,
) -> Result<Vec<u8>, AllocError>
    ensures { IfOk result (λ line. (name : List ℕ)
        × (line.items ≡ digest_line refusal.now.input name)) }
{
    let (read, unit) = (refusal.read, unit_of(program));
    let name = format!(in alloc; "first {read} {unit} of {input}")?;
    digest_text(alloc, refusal.input, name.as_str().as_bytes())
}

/// Tells with `--digests`, if IN is refused, how much of it was read. Returns how the call ended; or that there is no memory for that.
pub(crate) fn tell_refusal<H: Host>(
    engine: Engine,
    host: &mut H,
    halted: Halted,
    input: &str,
) -> Ending
    ensures { TellsQuietly engine.digests (H.log host.old) (H.log host.new) halted.ending result }
{
    let Halted { ending, refusal } = halted;
    if !engine.digests {
        return ending;
    }
    let Some(refusal) = refusal else {
        return ending;
    };
    match refusal_line(engine.alloc, engine.program, &refusal, input) {
        Ok(line) => {
            host.tell(&line);
            ending
        }
        Err(_) => Ending::Stopped(Stop::Memory),
    }
}

/// Prints what `check` reports.
pub(crate) fn print_checked<H: Host>(
    engine: Engine,
    host: &mut H,
    report: &Report,
    input: &str,
) -> Result<(), Ending>
    ensures { Tells (H.log host.old) (H.log host.new) (prints screen.Output
        (counts_text report.now.counts ∷ check_lines engine.digests report.now.input report.now.raw input.now)) result }
{
    print_counts(engine.alloc, host, Screen::Output, report.counts)?;
    if engine.digests {
        return print_file(
            engine.alloc,
            host,
            Screen::Output,
            &Digested {
                path: input,
                digest: report.input,
                raw: report.raw,
            },
        );
    }
    Ok(())
}

/// What a command that writes reports: what was read; the digest of what OUT took, if digests are printed; and that of the raw file which
/// this means, if it isn't that.
#[derive(Clone, Copy)]
pub(crate) struct Done {
    pub(crate) report: Report,
    pub(crate) output: Option<[u8; 32]>,
    pub(crate) meaning: Option<[u8; 32]>,
}

/// Prints what a command that writes reports.
pub(crate) fn print_done<H: Host>(
    alloc: Global,
    host: &mut H,
    screen: Screen,
    done: &Done,
    files: &Files<'_>,
) -> Result<(), Ending>
    ensures { Tells (H.log host.old) (H.log host.new) (prints screen
        (counts_text done.now.report.counts ∷ done_lines done.now.output done.now.meaning
        done.now.report.input done.now.report.raw files.now.input.now files.now.output.now)) result }
{
    print_counts(alloc, host, screen, done.report.counts)?;
    match done.output {
        Some(digest) => {
            let input = Digested {
                path: files.input,
                digest: done.report.input,
                raw: done.report.raw,
            };
            let output = Digested {
                path: files.output,
                digest,
                raw: done.meaning,
            };
            print_file(alloc, host, screen, &input)?;
            print_file(alloc, host, screen, &output)
        }
        None => Ok(()),
    }
}
