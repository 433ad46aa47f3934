//! The laws of several visitors and gatherers in one pass. Each is the contract of a function that does nothing: a proof that needs the
//! law calls it, or takes the lemma from this crate's `proofs/`.

ghost use Rattle.std.specs.Prelude.{◌≡◌, ℕ, List, Option, map};
ghost use Rattle.std.specs.List.{fold};
ghost use Rattle.osm_entity.specs.Entity.{EntitySpec};
ghost use Rattle.pbf_frame.specs.declared.stop.Stop.{Stop};
ghost use Rattle.pbf_frame.specs.Verdict.{Verdict};
ghost use Rattle.pbf_pass.specs.Each.{EachStops, EachTakesFile, EachTook, EachVisitsAll, OneFailed, each_gathered};
ghost use Rattle.pbf_pass.specs.declared.pass.Pass.{Pass};
ghost use Rattle.pbf_pass.specs.Pass.{TakesFile};
ghost use Rattle.pbf_pass.specs.Stops.{ReadFailed};
ghost use Rattle.pbf_pass.specs.Visit.{StopsVisit, VisitsAll};

use crate::visit::Visit;
use pbf_frame::Feed;

/// If several visitors visit a whole file as one, each of them visits it as in a pass of its own. If the pass stops, each of them stopped
/// as in a pass of its own, or took the first frames of the file before another one stopped.
pub fn each_visits_by_itself<F: Feed, V: Visit>()
    ensures all { (known : Option Verdict) (count : ℕ) (olds news : List V)
        → VisitsAll (EachTook V.took) known count olds news
        → EachVisitsAll V.took known count olds news }
    ensures stops { (known : Option Verdict) (start end : F) (olds news : List V) (stop : Stop)
        → StopsVisit (EachTook V.took) (OneFailed V.took V.failed) known
        (ReadFailed F.Feed start end) olds news stop
        → EachStops V.took V.failed known (ReadFailed F.Feed start end) olds news stop }
{}

/// If several gatherers gather entities as one, each of them gathers them as it does by itself. So what is said of a pass that judges a
/// file holds of each of them.
pub fn each_gathers_by_itself<G>()
    ensures entities { (gathered : G → EntitySpec → G) (each : List G) (es : List EntitySpec)
        → fold (each_gathered gathered) each es ≡ map (λ g. fold gathered g es) each }
    ensures judged { (gathered : G → EntitySpec → G) (known : Option Verdict)
        (befores nows : List G) (pass : Pass)
        → TakesFile (each_gathered gathered) known befores nows pass
        → EachTakesFile gathered known befores nows pass }
{}
