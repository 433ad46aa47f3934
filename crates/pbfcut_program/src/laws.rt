//! The laws of runs. Each is the contract of a function that does nothing: a proof that needs the law calls it, or takes the lemma of
//! that name from this crate's `proofs/`.

ghost use Rattle.std.specs.Prelude.{◌≡◌, ◌≤◌, ℕ, true, false, List, None, Some, codes, length};
ghost use Rattle.clap.specs.Words.{Row, Text, subcommand_of};
ghost use Rattle.osm_area.specs.Area.{AreaSpec, IsAreaWithin};
ghost use Rattle.osm_ways.specs.Selection.{IsWider};
ghost use Rattle.pbf_frame.specs.declared.frame.TheConstants.{FILE_LIMIT};
ghost use Rattle.pbf_frame.specs.Verdict.{judged};
ghost use Rattle.pbf_header.specs.WrittenHeader.{EdgesTyped, edges_of};
ghost use Rattle.pbf_pass.specs.Judged.{fully};
ghost use Rattle.pbfcut.specs.Kept.{IsWritable, conversion_of, extract_of};
ghost use Rattle.pbfcut_cli.specs.Joined.{normalized};
ghost use Rattle.pbfcut_cli.specs.Words.{AreTaken, ReadsAs, is_given, program_app};
ghost use Rattle.pbfcut_cli.specs.declared.programs.Program.{Program};
ghost use Rattle.pbfcut_cli.specs.declared.words.Command.TheVariants.{Extract};
ghost use Rattle.pbfcut_cli.specs.declared.words.Files.{Files};
ghost use Rattle.pbfcut_cli.specs.declared.words.Region.{Region};
ghost use Rattle.pbfcut_cli.specs.declared.words.Strategy.{Strategy};
ghost use Rattle.pbfcut_program.specs.Events.{Event};
ghost use Rattle.pbfcut_program.specs.Manner.{Manner, of_input, of_output};
ghost use Rattle.pbfcut_program.specs.Program.{IsRun, RunsExtract, Writes, manner_in, strategy_of};
ghost use Rattle.pbfcut_program.specs.Taking.{ReadsOnly, TookConversion, TookCopy, TookExtract};
ghost use Rattle.pbfcut.specs.Tasks.{converting, copying, extracting};
ghost use Rattle.pbfcut_program.specs.Tasks.{GivesRaw};

use osm_area::Area;
use pbfcut::laws::area_extracts_compose;

/// What `extract`, `convert`, `pack` and `unpack` did when they ended well, if each pass read the same file: OUT took bytes that mean the
/// extract of what the file means, a conversion of it, or the same.
pub fn commands_take()
    ensures extract { (file : List ℕ) (m : Manner) (cut : Region) (by : Strategy) (files : Files)
        (events : List Event) → RunsExtract m cut by files events → ReadsOnly file events
        → TookExtract m cut by file events }
    ensures convert { (file : List ℕ) (m : Manner) (files : Files) (events : List Event)
        → Writes m converting files events → ReadsOnly file events → TookConversion m file events }
    ensures copy { (file : List ℕ) (m : Manner) (files : Files) (events : List Event)
        → Writes m copying files events → ReadsOnly file events → TookCopy m file events }
{}

/// A run that ended with status 0, of words that `clap` takes as `extract` without a configuration, each pass of which read the same file: OUT
/// took the extract of what the file means, by the area and the strategy of the words.
pub fn run_takes_extract()
    ensures { (program : Program) (words : List Text) (rows : List Row) (events : List Event)
        (file : List ℕ) → is_given (codes "config") rows ≡ false
        → AreTaken program (normalized words)
        → subcommand_of (program_app program) (normalized words) ≡ Some (codes "extract", rows)
        → IsRun program words events 0 → ReadsOnly file events
        → (cut : Region) × (by : Strategy) × (files : Files)
        × ReadsAs (codes "extract") rows (Extract cut by files)
        × TookExtract (manner_in program (Extract cut by files)) cut by file events }
{}

/// What `convert` and `extract` write for a file that can be written is a raw file, unless it is longer than one may be; and so is a file
/// without a fault, which `pack` and `unpack` copy.
pub fn answers_are_raw_files()
    ensures convert { (file : List ℕ) → IsWritable file → length (conversion_of file) ≤ FILE_LIMIT
        → GivesRaw converting file }
    ensures copy { (file : List ℕ) → (fully (judged false 0 file)).1 ≡ None → GivesRaw copying file }
    ensures extract { (by : Strategy) (area : AreaSpec) (file : List ℕ)
        → EdgesTyped (edges_of area.bounds) → IsWritable file
        → length (extract_of (strategy_of by) area file) ≤ FILE_LIMIT
        → GivesRaw (extracting (strategy_of by) area) file }
{}

/// Two runs compose. If a run took an extract of a file, and another one, by a strategy that is no wider and by an area that lies in that
/// area, an extract of what the first one wrote, then what the second one wrote means byte for byte what a run over the first file
/// would have written. The two programs may be mixed: packed files count by what they mean.
pub fn runs_compose<A: Area>(area: &A)
    ensures { (m n : Manner) (cut inner : Region) (wide narrow : Strategy) (file part : List ℕ)
        (events later : List Event) → (first : TookExtract m cut wide file events)
        → (second : TookExtract n inner narrow part later)
        → IsWider (strategy_of narrow) (strategy_of wide)
        → first.area ≡ A.area area.now → IsAreaWithin second.area first.area
        → of_input n part ≡ of_output m first.bytes → length (of_input n part) ≤ FILE_LIMIT
        → of_output n second.bytes
        ≡ extract_of (strategy_of narrow) second.area (of_input m file) }
{
    area_extracts_compose(area);
}
