//! The laws of files: what a run changes in the file system, if that is as the events say (`AllowsAll`) and nobody else changes it.
//! Names count as they are written: nothing is said of two spellings of one name. Like the laws of runs, each is the contract of a
//! function that does nothing.

ghost use Rattle.std.specs.Prelude.{[], ◌≡◌, ◌⊎◌, ◌++◌, ◌∷◌, ℕ, List, Bool, true, false, Some, None, codes};
ghost use Rattle.std.specs.List.{AllByRecursion};
ghost use Rattle.clap.specs.Words.{Row, Text};
ghost use Rattle.pbfcut_cli.specs.Words.{ReadsAs, is_given};
ghost use Rattle.pbfcut_cli.specs.declared.programs.Program.{Program};
ghost use Rattle.pbfcut_cli.specs.declared.programs.Program.TheVariants.{Pbfcut, Pbfcutz};
ghost use Rattle.pbfcut_cli.specs.declared.words.Command.{Command};
ghost use Rattle.pbfcut_cli.specs.declared.words.Command.TheVariants.{Convert, Extract, ExtractEach, Pack, Unpack};
ghost use Rattle.pbfcut_cli.specs.declared.words.ConfigFiles.{ConfigFiles};
ghost use Rattle.pbfcut_cli.specs.declared.words.Files.{Files};
ghost use Rattle.pbfcut_cli.specs.declared.words.Region.{Region};
ghost use Rattle.pbfcut_cli.specs.declared.words.Strategy.{Strategy};
ghost use Rattle.pbfcut_program.specs.Changes.{DropsFile, EndsWell, GivesConversion, GivesCopy, GivesExtract, KeepsFile};
ghost use Rattle.pbfcut_program.specs.Events.{Event, Writing, stays};
ghost use Rattle.pbfcut_program.specs.Failures.{AreConversion, AreCopy, AreExtract, EndsBadly, LeavesOut};
ghost use Rattle.pbfcut_program.specs.Files.{AllowsAll, Disk, after};
ghost use Rattle.pbfcut_program.specs.Program.{IsMeant, manner_in};
ghost use Rattle.pbfcut_program.specs.Settling.{HandlesIn, RunSettles};
ghost use Rattle.pbfcut_program.specs.SeveralChanges.{HandlesFiles, IsApart, IsDroppedFile, IsKeptWhole, OneFile, Pairwise};
ghost use Rattle.pbfcut_program.specs.SeveralFailures.{LeavesSeveral};
ghost use Rattle.pbfcut_program.specs.SeveralGives.{GivesEach};
ghost use Rattle.pbfcut_program.specs.SeveralWrites.{strategy_with};
ghost use Rattle.pbfcut_program.specs.Taking.{Happened};

/// What a user finds after a run that keeps OUT: OUT has all that was written to it, and every other file is as it was. pbfcutz writes OUT
/// by another name first, as a part. A part that couldn't be removed is left, but it is a new file, so no other one is lost by it. Without
/// `--overwrite` there was nothing by OUT's name before.
pub fn writes_out()
    ensures there { (program : Program) (overwrite : Bool) (output : List ℕ) (w : Writing)
        (events : List Event) (disk : Disk) → KeepsFile program overwrite output w events
        → AllowsAll disk events → after events disk output ≡ Some w.bytes }
    ensures others { (program : Program) (overwrite : Bool) (output : List ℕ) (w : Writing)
        (events : List Event) (disk : Disk) → KeepsFile program overwrite output w events
        → AllowsAll disk events → (path : List ℕ) → (path ≡ output → ⊥)
        → (Happened (stays path) events → ⊥) → after events disk path ≡ disk path }
    ensures parts { (program : Program) (overwrite : Bool) (output : List ℕ) (w : Writing)
        (events : List Event) (disk : Disk) → KeepsFile program overwrite output w events
        → AllowsAll disk events → (path : List ℕ) → Happened (stays path) events
        → (path ≡ output → ⊥) × (disk path ≡ None) }
    ensures fresh { (program : Program) (overwrite : Bool) (output : List ℕ) (w : Writing)
        (events : List Event) (disk : Disk) → KeepsFile program overwrite output w events
        → AllowsAll disk events → overwrite ≡ false → disk output ≡ None }
{}

/// What a user finds after a run that fails once it has made OUT: pbfcutz leaves what there was by OUT's name, or nothing if there was
/// nothing. pbfcut leaves a new file, with all that was written to it, if all of that went out. Every other file is as it was, but a part
/// may be left, which is new.
pub fn drops_out()
    ensures pbfcut { (output : List ℕ) (w : Writing) (events : List Event) (disk : Disk)
        → DropsFile Pbfcut output w events → AllowsAll disk events
        → (disk output ≡ None) × (w.fault ≡ None → after events disk output ≡ Some w.bytes) }
    ensures pbfcutz { (output : List ℕ) (w : Writing) (events : List Event) (disk : Disk)
        → DropsFile Pbfcutz output w events → AllowsAll disk events
        → after events disk output ≡ disk output }
    ensures others { (program : Program) (output : List ℕ) (w : Writing) (events : List Event)
        (disk : Disk) → DropsFile program output w events → AllowsAll disk events
        → (path : List ℕ) → (path ≡ output → ⊥) → (Happened (stays path) events → ⊥)
        → after events disk path ≡ disk path }
    ensures parts { (program : Program) (output : List ℕ) (w : Writing) (events : List Event)
        (disk : Disk) → DropsFile program output w events → AllowsAll disk events
        → (path : List ℕ) → Happened (stays path) events
        → (path ≡ output → ⊥) × (disk path ≡ None) }
{}

/// OUT of pbfcutz is never incomplete: after each event, also if the run is killed then, OUT is as it was before, or it has all that was written
/// to it. (`moved` is one event; a file system without links takes two steps for it, and has an empty OUT between them.) In a run that drops OUT
/// it is always as it was before. Of both programs, every other file that was there keeps its bytes at each moment.
pub fn always_whole()
    ensures kept { (overwrite : Bool) (output : List ℕ) (w : Writing) (started later : List Event)
        (disk : Disk) → KeepsFile Pbfcutz overwrite output w (started ++ later)
        → (after started disk output ≡ disk output) ⊎ (after started disk output ≡ Some w.bytes) }
    ensures dropped { (output : List ℕ) (w : Writing) (started later : List Event) (disk : Disk)
        → DropsFile Pbfcutz output w (started ++ later)
        → after started disk output ≡ disk output }
    ensures others { (program : Program) (overwrite : Bool) (output : List ℕ) (w : Writing)
        (started later : List Event) (disk : Disk)
        → KeepsFile program overwrite output w (started ++ later)
        ⊎ DropsFile program output w (started ++ later)
        → AllowsAll disk (started ++ later) → (path bytes : List ℕ) → (path ≡ output → ⊥)
        → disk path ≡ Some bytes → after started disk path ≡ Some bytes }
{}

/// What a user finds after a run of pbfcutz that writes several OUTs, if they have different paths, and none has the name that another's file
/// has until it is whole: each OUT that is kept has all that was written to it, and each one that is dropped has what it had. Every other
/// file is as it was. A part that couldn't be removed is left, but it is a new file, so no other one is lost by it. Without `--overwrite`
/// there was nothing by the names of those that are kept. The names of parts are a premise (`IsApart`): nothing keeps a user from giving an
/// OUT the very name that the part of another one gets, which has the number of the process in it.
pub fn writes_several()
    ensures kept { (overwrite : Bool) (before later : List OneFile) (one : OneFile)
        (events : List Event) (disk : Disk)
        → HandlesFiles Pbfcutz overwrite (before ++ one ∷ later) events
        → Pairwise IsApart (before ++ one ∷ later) → AllowsAll disk events
        → IsKeptWhole Pbfcutz overwrite one → after events disk one.output ≡ Some one.out.bytes }
    ensures dropped { (overwrite : Bool) (before later : List OneFile) (one : OneFile)
        (events : List Event) (disk : Disk)
        → HandlesFiles Pbfcutz overwrite (before ++ one ∷ later) events
        → Pairwise IsApart (before ++ one ∷ later) → IsDroppedFile Pbfcutz one
        → after events disk one.output ≡ disk one.output }
    ensures others { (overwrite : Bool) (files : List OneFile) (events : List Event) (disk : Disk)
        → HandlesFiles Pbfcutz overwrite files events → Pairwise IsApart files → AllowsAll disk events
        → (path : List ℕ)
        → AllByRecursion (λ one. path ≡ one.output → ⊥) files
        → (Happened (stays path) events → ⊥) → after events disk path ≡ disk path }
    ensures fresh { (overwrite : Bool) (before later : List OneFile) (one : OneFile)
        (events : List Event) (disk : Disk)
        → HandlesFiles Pbfcutz overwrite (before ++ one ∷ later) events
        → Pairwise IsApart (before ++ one ∷ later) → AllowsAll disk events
        → IsKeptWhole Pbfcutz overwrite one → overwrite ≡ false → disk one.output ≡ None }
    ensures parts { (overwrite : Bool) (files : List OneFile) (events : List Event) (disk : Disk)
        → HandlesFiles Pbfcutz overwrite files events → Pairwise IsApart files → AllowsAll disk events
        → (path : List ℕ) → Happened (stays path) events
        → AllByRecursion (λ one. path ≡ one.output → ⊥) files × (disk path ≡ None) }
{}

/// What any run does to a user's files, however it ends: no file has changed; or OUT was made, and was kept or dropped, as `writes_out` and
/// `drops_out` say; or the OUTs of a configuration were, as `writes_several` says. Only a command that writes files does that.
pub fn any_run()
    ensures { (program : Program) (words : List Text) (events : List Event) (disk : Disk)
        → RunSettles program words (Some []) (Some events)
        → ((path : List ℕ) → after events disk path ≡ disk path)
        ⊎ ((command : Command) × IsMeant program words command
        × HandlesIn program command events) }
{}

/// What status 0 of `extract` says of a user's files: OUT has bytes that mean exactly the extract of those that IN has on the disk, by the area
/// and the strategy of the words; the area of a polygon is that of the text that its file has on the disk. Every other file is as it was, but a
/// part may be left, which is new. Without `--overwrite` there was nothing by OUT's name before. If OUT is standard output, it took the extract,
/// and no file has changed. The words name no configuration.
pub fn run_of_extract()
    ensures { (program : Program) (words : List Text) (rows : List Row) (events : List Event)
        (disk : Disk) (file : List ℕ) → is_given (codes "config") rows ≡ false
        → EndsWell program words (codes "extract") rows events disk file
        → (cut : Region) × (by : Strategy) × (files : Files)
        × ReadsAs (codes "extract") rows (Extract cut by files)
        × GivesExtract (manner_in program (Extract cut by files)) cut by files file events disk }
{}

/// What another status of `extract` says of them, of pbfcutz: OUT is as it was; or it was kept before the run failed, and has the whole extract
/// of what IN has on the disk, by the area and the strategy of the words. Every other file is as it was, but a part may be left, which is
/// new. IN and OUT have two paths, and the words name no configuration.
pub fn failure_of_extract()
    ensures { (words : List Text) (rows : List Row) (events : List Event) (disk : Disk)
        (file : List ℕ) → is_given (codes "config") rows ≡ false
        → EndsBadly Pbfcutz words (codes "extract") rows events disk file
        → ((path : List ℕ) → after events disk path ≡ disk path)
        ⊎ ((cut : Region) × (by : Strategy) × (files : Files)
        × ReadsAs (codes "extract") rows (Extract cut by files)
        × LeavesOut (AreExtract (manner_in Pbfcutz (Extract cut by files)) cut by file events disk)
        files events disk) }
{}

/// What status 0 of `extract --config` says of them: each OUT has bytes that mean exactly the extract of those that IN has on the disk, by the
/// area that the configuration gives it, as the disk has this and the files of polygons that it names. Without `--overwrite` none was there
/// before. Every other file is as it was, but a part may be left, which is new. Two OUTs have two paths, and no OUT has the name that another one
/// has until it is whole.
pub fn run_of_extracts()
    ensures { (words : List Text) (rows : List Row) (events : List Event) (disk : Disk)
        (file : List ℕ) → is_given (codes "config") rows ≡ true
        → EndsWell Pbfcutz words (codes "extract") rows events disk file
        → (parents : Bool) × (files : ConfigFiles)
        × ReadsAs (codes "extract") rows (ExtractEach parents files)
        × GivesEach (manner_in Pbfcutz (ExtractEach parents files)) (strategy_with parents) files
        file events disk }
{}

/// What another status of `extract --config` says of them: each OUT that was made is as it was; or it was kept before the run failed, and has
/// bytes that mean exactly the extract of what IN has on the disk, by its area. They are the first OUTs of the configuration that the disk has,
/// if not all: if one can't be made, those after it aren't made. Every other file is as it was, but a part may be left, which is new. IN has
/// another path than each OUT, two OUTs have two paths, and no OUT has the name that another one has until it is whole.
pub fn failure_of_extracts()
    ensures { (words : List Text) (rows : List Row) (events : List Event) (disk : Disk)
        (file : List ℕ) → is_given (codes "config") rows ≡ true
        → EndsBadly Pbfcutz words (codes "extract") rows events disk file
        → ((path : List ℕ) → after events disk path ≡ disk path)
        ⊎ ((parents : Bool) × (files : ConfigFiles)
        × ReadsAs (codes "extract") rows (ExtractEach parents files)
        × LeavesSeveral (manner_in Pbfcutz (ExtractEach parents files)) (strategy_with parents)
        files file events disk) }
{}

/// What status 0 of `convert` says of them: OUT has bytes that mean a conversion of what those of IN mean. The rest is as after
/// `extract`.
pub fn run_of_convert()
    ensures { (program : Program) (words : List Text) (rows : List Row) (events : List Event)
        (disk : Disk) (file : List ℕ) → EndsWell program words (codes "convert") rows events disk file
        → (files : Files) × ReadsAs (codes "convert") rows (Convert files)
        × GivesConversion (manner_in program (Convert files)) files file events disk }
{}

/// What another status of `convert` says of them, of pbfcutz: OUT is as it was; or it was kept before the run failed, and has bytes that mean a
/// conversion of what those of IN mean. The rest is as in `failure_of_extract`.
pub fn failure_of_convert()
    ensures { (words : List Text) (rows : List Row) (events : List Event) (disk : Disk)
        (file : List ℕ) → EndsBadly Pbfcutz words (codes "convert") rows events disk file
        → ((path : List ℕ) → after events disk path ≡ disk path)
        ⊎ ((files : Files) × ReadsAs (codes "convert") rows (Convert files)
        × LeavesOut (AreConversion (manner_in Pbfcutz (Convert files)) file events) files events
        disk) }
{}

/// What status 0 of `pack` and of `unpack` says of them: OUT has bytes that mean the same raw file as those of IN. The rest is as
/// after `extract`.
pub fn run_of_copy()
    ensures pack { (program : Program) (words : List Text) (rows : List Row) (events : List Event)
        (disk : Disk) (file : List ℕ) → EndsWell program words (codes "pack") rows events disk file
        → (files : Files) × ReadsAs (codes "pack") rows (Pack files)
        × GivesCopy (manner_in program (Pack files)) files file events disk }
    ensures unpack { (program : Program) (words : List Text) (rows : List Row) (events : List Event)
        (disk : Disk) (file : List ℕ) → EndsWell program words (codes "unpack") rows events disk file
        → (files : Files) × ReadsAs (codes "unpack") rows (Unpack files)
        × GivesCopy (manner_in program (Unpack files)) files file events disk }
{}

/// What another status of `pack` and of `unpack` says of them, of pbfcutz: OUT is as it was; or it was kept before the run failed, and has bytes
/// that mean the same raw file as those of IN. The rest is as in `failure_of_extract`.
pub fn failure_of_copy()
    ensures pack { (words : List Text) (rows : List Row) (events : List Event) (disk : Disk)
        (file : List ℕ) → EndsBadly Pbfcutz words (codes "pack") rows events disk file
        → ((path : List ℕ) → after events disk path ≡ disk path)
        ⊎ ((files : Files) × ReadsAs (codes "pack") rows (Pack files)
        × LeavesOut (AreCopy (manner_in Pbfcutz (Pack files)) file events) files events disk) }
    ensures unpack { (words : List Text) (rows : List Row) (events : List Event) (disk : Disk)
        (file : List ℕ) → EndsBadly Pbfcutz words (codes "unpack") rows events disk file
        → ((path : List ℕ) → after events disk path ≡ disk path)
        ⊎ ((files : Files) × ReadsAs (codes "unpack") rows (Unpack files)
        × LeavesOut (AreCopy (manner_in Pbfcutz (Unpack files)) file events) files events disk) }
{}
