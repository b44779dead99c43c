//! Theorems about the definitions to which the contracts of this crate refer. The functions have no
//! code and nothing calls them: what they state is proved as the crate is checked. `docs/proved.md`
//! names them.

ghost use Rattle.std.specs.Prelude.{◌≡◌, ℕ, ◌^◌, List, [], ◌∷◌};
ghost use Rattle.bgpdump_tool.specs.declared.play.TheConstants.{LONGEST_SCRIPT};
ghost use Rattle.mrt_events.specs.declared.event.TheConstants.{ESTABLISHED};
ghost use Rattle.bgpdump_tool.specs.declared.execution.moves.TheConstants.{IDLE};
ghost use Rattle.bgpdump_tool.specs.declared.command.Command.{Command};
ghost use Rattle.bgpdump_tool.specs.Script.{SpellsCommand, Line, IsScript};
ghost use Rattle.ip_prefix.specs.Network.{Address};
ghost use Rattle.mrt_events.specs.declared.peer.Peer.{Peer};
ghost use Rattle.rib_player.specs.Tables.{Routes};
ghost use Rattle.rib_player.specs.Lookups.{IsBest};
ghost use Rattle.bgpdump_tool.specs.Replies.{longest_match};

/// States the values of the constants that the contracts name: a script has at most 2^20 octets
/// (`LONGEST_SCRIPT`); the numbers of the session states Established and Idle are 6 and 1 (RFC
/// 6396, section 4.4.1).
pub fn law_script_constants()
    ensures script { LONGEST_SCRIPT ≡ 2 ^ 20 }
    ensures states { ESTABLISHED ∷ IDLE ∷ [] ≡ 6 ∷ 1 ∷ [] }
{}

/// States that no line of a script can be read as two different commands.
pub fn law_one_command()
    ensures { (a b : Command) (line : List ℕ) → SpellsCommand a line → SpellsCommand b line →
        a ≡ b }
{}

/// States that each text can be read as a script in exactly one way:
/// - no text gives two different lists of lines (each empty, a command, or a bad line);
/// - each text gives a list of lines (stated as: it can't be that it gives none).
pub fn law_one_script()
    ensures one { (a b : List Line) (script : List ℕ) → IsScript a script → IsScript b script →
        a ≡ b }
    ensures some { (script : List ℕ) → ((lines : List Line) → IsScript lines script → ⊥) → ⊥ }
{}

/// States that the reply to the command `lookup`, which the contracts define by `longest_match`, is
/// the peer's route to the longest prefix that contains the address, or none if no prefix that the
/// peer has a route to contains it. At most one route meets this (`law_routes_of_peers`,
/// `law_one_longest`). It follows that the reply agrees with `Table::longest`; this law doesn't
/// state that itself.
pub fn law_best_match()
    ensures { (routes : Routes) (peer : Peer) (address : Address) →
        IsBest routes peer address (longest_match routes peer address) }
{}
