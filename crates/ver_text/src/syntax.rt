ghost use Rattle.std.specs.Prelude.{◌≡◌, ◌≤◌, length};
ghost use Rattle.ver_text.specs.Tokens.{after, refused, tokens_from};

use crate::grammar::State;
use crate::kind::Kind;
use crate::token::lexeme_at;

// After one more token or gap; `None` exactly where it is a token that can't come there.
fn after(state: State, kind: Kind) -> Option<State>
    ensures { result ≡ after state kind }
{
    if kind.is_gap() {
        return Some(state);
    }
    state.next_state(kind)
}

/// The place at which the syntax refuses a text from a place on, behind what led to this state: that of the
/// first token, or first byte that begins none, that can't come; or its length, where it ends too early.
/// `None` where it has the syntax.
pub fn refused_from(text: &[u8], mut state: State, mut at: usize) -> Option<usize>
    requires { at ≤ length text.now }
    ensures { result ≡ refused state (tokens_from text.now at) (length text.now) }
{
    while at < text.len() {
        let lexeme = lexeme_at(text, at);
        let Some(next) = after(state, lexeme.kind) else {
            return Some(at);
        };
        state = next;
        at += lexeme.more + 1;
    }
    if state.is_whole() {
        None
    } else {
        Some(text.len())
    }
}
