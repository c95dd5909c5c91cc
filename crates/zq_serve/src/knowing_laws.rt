//! What a desk keeps. The functions do nothing: they stand for their contracts.

ghost use Rattle.std.specs.Prelude.{List, Option, Some, [], ℕ, ◌∷◌, ◌≡◌};
ghost use Rattle.zq_client.specs.Clients.{Client};
ghost use Rattle.zq_client.specs.declared.profile.Profile.{Profile};
ghost use Rattle.zq_resp.specs.declared.reply.Reply.{Reply};
ghost use Rattle.zq_serve.specs.Callers.{Caller, resting};
ghost use Rattle.zq_serve.specs.Desks.{AnswersAtDesk, IsStranger, way_of};
ghost use Rattle.zq_serve.specs.Preparing.{inside};
ghost use Rattle.zq_serve.specs.Queues.{Open};
ghost use Rattle.zq_serve.specs.Together.{AreRead, Waits};
ghost use Rattle.zq_serve.specs.Transactions.{IsRun};
ghost use Rattle.zq_serve.specs.declared.control.Control.TheVariants as control;
ghost use Rattle.zq_serve.specs.declared.knowing.Way.TheVariants as way;
ghost use Rattle.zq_session.specs.declared.queued.Queued.{Queued};

use zq_session::{Answers, Transacts};

/// What answers a site's requests is not asked by a connection that has to show the password and
/// has not: whatever it asks, the answerer inside stays as it is.
pub fn strangers_reach_nothing<A: Answers + Transacts>()
    ensures { (profile : Profile) (old new : A) (own own_new : Option Caller)
        (words : List (List ℕ)) (reply : Reply) → IsStranger profile own →
        AnswersAtDesk (inside A.answers A.prepares A.transacts A.watches) profile old own words
        reply new own_new → new ≡ old }
{}

/// Requests that wait, whatever other connections do meanwhile, are answered as one: EXEC asks once
/// what answers the site's requests, for all of them in their order, each as it was read when it
/// came. Afterwards nothing waits and nothing is watched.
pub fn transactions_are_one<A: Answers + Transacts>()
    ensures { (profile : Profile) (begun waited ended : Caller) (requests : List (List (List ℕ)))
        (queue : List Queued) (old new : A) (name : List ℕ) (reply : Reply) →
        begun.queue ≡ Open [] →
        Waits (inside A.answers A.prepares A.transacts A.watches) profile begun requests waited →
        waited.queue ≡ Open queue → way_of waited (name ∷ []) ≡ way.Control control.Exec →
        AnswersAtDesk (inside A.answers A.prepares A.transacts A.watches) profile old (Some waited)
        (name ∷ []) reply new (Some ended) →
        AreRead A.prepares requests queue × (client : Client)
        × IsRun A.transacts profile old begun.client queue begun.watching reply new client
        × (ended ≡ resting client) }
{}
