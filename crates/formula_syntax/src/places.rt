//! Tokens that change nothing but what has to come next.

ghost use Rattle.std.specs.Prelude.{◌≡◌, if◌then◌else◌, None, Some};
ghost use Rattle.text_base.specs.Lexemes.{is_lexeme, lexeme_of};
ghost use Rattle.formula_syntax.specs.FormulaParser.{behind_name, place_behind};

use crate::atom::Atom;
use crate::formula_parser::Expected;
use crate::lookup::{named, with_value};
use crate::named_model::NamedModel;
use text_base::{Kind, Token, is_lexeme, is_name_word};

/// The place, where the token is this one.
fn behind(token: &Token, kind: Kind, text: &[u8], place: Expected) -> Option<Expected>
    ensures { result ≡ (if is_lexeme (kind, text.now) (lexeme_of token.now) then Some place else
        None) }
{
    if is_lexeme(token, kind, text) {
        Some(place)
    } else {
        None
    }
}

/// Behind an atom's name.
fn behind_name(atom: Atom, token: &Token) -> Option<Expected>
    ensures { result ≡ behind_name atom (lexeme_of token.now) }
{
    if is_lexeme(token, Kind::Symbol, b"=") {
        Some(Expected::Compared {
            atom,
            differs: false,
        })
    } else if is_lexeme(token, Kind::Symbol, b"!=") {
        Some(Expected::Compared {
            atom,
            differs: true,
        })
    } else {
        behind(token, Kind::Word, b"in", Expected::Opened(atom))
    }
}

/// What has to come next behind a token that changes nothing else.
pub fn place_behind(
    model: &NamedModel,
    strict: bool,
    place: Expected,
    token: &Token,
) -> Option<Expected>
    ensures { result ≡ place_behind strict model.now place (lexeme_of token.now) }
{
    match place {
        Expected::Operand => {
            if is_name_word(token) {
                Some(Expected::Named(named(model, token.text)))
            } else {
                None
            }
        }
        Expected::Operator => behind(token, Kind::Word, b"and", Expected::Operand),
        Expected::Named(atom) => behind_name(atom, token),
        Expected::Compared {
            atom: _,
            differs: _,
        } => None,
        Expected::Opened(atom) => behind(token, Kind::Symbol, b"{", Expected::Listed(atom)),
        Expected::Listed(atom) => {
            if is_name_word(token) {
                let atom = with_value(model.model(), strict, atom, token.text);
                Some(Expected::Followed(atom))
            } else {
                None
            }
        }
        Expected::Followed(atom) => behind(token, Kind::Symbol, b",", Expected::Listed(atom)),
    }
}
