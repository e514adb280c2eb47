//! Laws of commands, and of sessions by files. Each function does nothing: its clauses are the laws.
ghost use Rattle.std.specs.Prelude.{◌≡◌, ◌<◌, ◌^◌, ℕ, false, List, [], Ok};
ghost use Rattle.std.specs.List.{AllByRecursion};
ghost use Rattle.spl_outside.specs.Content.{FileMap};
ghost use Rattle.session_laws.specs.OwnSessions.{Session, IsSession, own_text};
ghost use Rattle.command_words.specs.Orders.{CombineOrder, Order};
ghost use Rattle.splinter_commands.specs.Commands.{combine_ready, combined, conduct_of};
ghost use Rattle.splinter_commands.specs.Effects.{Effect};
ghost use Rattle.splinter_commands.specs.HeldSessions.{HoldsSession};

use client_rounds::laws::expanders_give_seeds;
use seed_expansion::laws::chacha_is_pure;
use session_laws::laws::{own_sessions_are_spelled, own_sessions_end};

/// Where the files that `combine` reads hold the note of a session and what both providers answer to its key files, in
/// either order, nothing refuses them, and they come to the text of the clear answer.
pub fn own_sessions_are_combined()
    ensures { (s : Session) (o : CombineOrder) (m : FileMap) → IsSession s → AllByRecursion (λ w. w < 2 ^ 64) s.words → HoldsSession s o m → combine_ready o m ≡ Ok (combined (own_text s)) }
{
    expanders_give_seeds();
    chacha_is_pure();
    own_sessions_are_spelled();
    own_sessions_end();
}

/// What a command may do at all is said with its order: one that may not draw draws no word over any files, and one that may
/// not print prints nothing.
pub fn commands_do_what_they_may()
    ensures draws { (o : Order) (m : FileMap) (x : Effect) → (conduct_of o).ready m ≡ Ok x → (conduct_of o).may_draw ≡ false → x.draws ≡ 0 }
    ensures prints { (o : Order) (m : FileMap) (x : Effect) → (conduct_of o).ready m ≡ Ok x → (conduct_of o).may_print ≡ false → (words : List ℕ) → x.prints words ≡ [] }
{}
