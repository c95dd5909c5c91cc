//! The notes of a site's calls.

ghost use Rattle.std.specs.Prelude.{IfOk, List, Option, Result as Results, [], map, ℕ, ◌∷◌, ◌⊎◌};
ghost use Rattle.zq_commands.specs.Calls.{procedures};
ghost use Rattle.zq_dots.specs.Placed.{Placed};
ghost use Rattle.zq_journal.specs.declared.faults.MergeFault.{MergeFault};
ghost use Rattle.zq_journal.specs.declared.faults.TakeFault.{TakeFault};
ghost use Rattle.zq_journal.specs.declared.faults.TakeOverFault.{TakeOverFault};
ghost use Rattle.zq_journal.specs.declared.since.Since.{Since};
ghost use Rattle.zq_notes.specs.Calls.{HasNote, HeldNone};
ghost use Rattle.zq_notes.specs.Notes.{Copied, Handed, HandedAll, Joined, Portioned, Replied, RepliedEach, RepliedIf, Shown, TakenOver, ToCopy, ToDrain, ToMerge, ToPortion, ToRun, ToRunEach, ToRunWatched, ToShow, ToTake, ToTakeAll, ToTakeOver, ToTell, Told};
ghost use Rattle.zq_shard.specs.Shard.{HeapImage};
ghost use Rattle.zq_shard.specs.declared.spot.Spot.{Spot};
ghost use Rattle.zq_shard.specs.declared.taken.Taken.{Taken};
ghost use Rattle.zq_spread.specs.Answers.{IsAsked, IsCopied, IsDrained, IsMerged, IsPortioned, IsShown, IsSince, IsTaken, IsTakenOver};
ghost use Rattle.zq_spread.specs.Batches.{IsTakenAll};
ghost use Rattle.zq_spread.specs.Calls.{HasSeenBook, IsCall, IsLikeSite, IsOfSite};
ghost use Rattle.zq_spread.specs.Dispatch.{IsCalled, all_heaps};
ghost use Rattle.zq_spread.specs.Each.{DoesEach};
ghost use Rattle.zq_spread.specs.Watches.{Watch};
ghost use Rattle.zq_spread.specs.Watching.{DoesWatched};
ghost use Rattle.zq_spread.specs.declared.faults.ReadFault.{ReadFault};
ghost use Rattle.zq_spread.specs.declared.pass.Pass.{Pass};
ghost use Rattle.zq_spread.specs.declared.site.Site.{Site};
ghost use Rattle.zq_spread.specs.declared.taken_all.TakenAll.{TakenAll};
ghost use Rattle.zq_stage.specs.declared.portion.Portion.{Portion};
ghost use Rattle.zq_stage.specs.declared.portion.PortionLimits.{PortionLimits};
ghost use Rattle.zq_words.specs.Calls.{call_shown};
ghost use Rattle.zq_words.specs.Command.{Command};
ghost use Rattle.zq_words.specs.Words.{Word};
ghost use Rattle.zq_words.specs.declared.site_call.SiteCall.{SiteCall};

/// Each call of a site that held a heap leaves a note: what [`zq_spread::Site::call`], `try_call`,
/// `call_each`, `call_watched`, `take`, `take_all`, `merge`, `take_over`, `since`, `drain`, `state`,
/// `portion` and `vector` promise is that there is one. A command that held none needs none, or was
/// refused before it held any. An operation or a heap that is not of the site's kind is refused with
/// no lock taken.
pub fn noting()
    ensures calls { (site : Site) (p : ℕ) (before after : Pass) (command : Command) (w1 w2 : ℕ)
        (reply : Word) → IsCalled site command w1 w2 reply before after →
        HasNote site p before after (ToRun command w1 w2) (Replied reply)
        ⊎ HeldNone site command w1 w2 reply before after }
    ensures calls_each { (site : Site) (p : ℕ) (before after : Pass) (calls : List SiteCall)
        (replies : List Word) → IsCall (DoesEach site after.stamp (procedures calls) replies)
        before after (all_heaps site) →
        HasNote site p before after (ToRunEach (map call_shown calls)) (RepliedEach replies) }
    ensures calls_watched { (site : Site) (p : ℕ) (before after : Pass) (watch : Watch)
        (calls : List SiteCall) (replies : Option (List Word)) →
        IsCall (DoesWatched site after.stamp watch (procedures calls) replies) before after
        (all_heaps site) → HasNote site p before after (ToRunWatched watch (map call_shown calls))
        (RepliedIf replies) }
    ensures takes { (site : Site) (p : ℕ) (before after : Pass) (op : Placed)
        (result : Results Taken TakeFault) → IsOfSite site op →
        IsCall (IsTaken after.stamp op result) before after (op.operation.heap ∷ []) →
        HasNote site p before after (ToTake op) (Handed result) }
    ensures takes_all { (site : Site) (p : ℕ) (before after : Pass) (heap : ℕ)
        (ops : List Placed) (answer : TakenAll) →
        IsCall (IsTakenAll after.stamp ops answer) before after (heap ∷ []) →
        HasNote site p before after (ToTakeAll heap ops) (HandedAll answer) }
    ensures merges { (site : Site) (p : ℕ) (before after : Pass) (other : HeapImage)
        (result : Results (Unit {0}) MergeFault) → IsLikeSite site other →
        IsCall (IsMerged after.stamp other result) before after (other.heap ∷ []) →
        HasNote site p before after (ToMerge other) (Joined result) }
    ensures takes_over { (site : Site) (p : ℕ) (before after : Pass) (other : HeapImage)
        (result : Results (Unit {0}) TakeOverFault) → IsLikeSite site other →
        IsCall (IsTakenOver after.stamp other result) before after (other.heap ∷ []) →
        HasNote site p before after (ToTakeOver other) (TakenOver result) }
    ensures tells { (site : Site) (p : ℕ) (before after : Pass) (heap : ℕ) (vector : List ℕ)
        (result : Results Since ReadFault) → IsCall (IsAsked result) before after (heap ∷ []) →
        IfOk result (λ since. HasSeenBook after heap (IsSince vector since)) →
        HasNote site p before after (ToTell heap vector) (Told result) }
    ensures drains { (site : Site) (p : ℕ) (before after : Pass) (heap : ℕ) (vector : List ℕ)
        (most : ℕ) (result : Results Since ReadFault) →
        IsCall (IsDrained after.stamp vector most result) before after (heap ∷ []) →
        HasNote site p before after (ToDrain heap vector most) (Told result) }
    ensures copies { (site : Site) (p : ℕ) (before after : Pass) (heap : ℕ)
        (result : Results HeapImage ReadFault) → IsCall (IsCopied result) before after (heap ∷ []) →
        HasNote site p before after (ToCopy heap) (Copied result) }
    ensures portions { (site : Site) (p : ℕ) (before after : Pass) (heap : ℕ) (spot : Spot)
        (limits : PortionLimits) (result : Results Portion ReadFault) →
        IsCall (IsPortioned spot limits result) before after (heap ∷ []) →
        HasNote site p before after (ToPortion heap spot limits) (Portioned result) }
    ensures shows { (site : Site) (p : ℕ) (before after : Pass) (heap : ℕ) (vector : List ℕ) →
        IsCall (IsShown vector) before after (heap ∷ []) →
        HasNote site p before after (ToShow heap) (Shown vector) }
{}
