//! The tokens of a line, each as long as it can be.

ghost use Rattle.std.specs.Prelude.{◌≡◌, ℕ, ◌+◌, ◌<◌, ◌≤◌, not, ◌∷◌, List, length, drop, position, map, MatchOption, None, Some, Ok, Err};
ghost use Rattle.std.specs.List.{AllByRecursion};
ghost use Rattle.text_base.specs.Ahead.{IsNext};
ghost use Rattle.text_base.specs.Bytes.{is_comment_byte};
ghost use Rattle.text_base.specs.Coverage.{BeginsComment, BelongsToLine, StandsBefore, StopsAt, IsLongest};
ghost use Rattle.text_base.specs.Tokens.{Tok, IsPartOf, IsOfItsKind, Rise, piece_of, StaysWithin, tokens_of, token_view, Gives};

use crate::bytes::{digits_len, is_blank, is_comment_byte, is_symbol, word_len};
use std::alloc::{AllocError, AllocFailed, Global};
use thiserror::Error;

/// What a token's bytes are.
#[derive(Clone, Copy, Debug, PartialEq, Eq)]
pub enum Kind {
    Word,
    Number,
    Symbol,
}

/// A token, and where it stands in its line.
#[derive(Clone, Copy, Debug)]
pub struct Token<'a> {
    pub kind: Kind,
    pub start: usize,
    pub end: usize,
    pub text: &'a [u8],
}

/// A byte that belongs to no token, no blank and no comment.
#[derive(Clone, Copy, Debug, PartialEq, Eq)]
pub struct BadByte {
    pub at: usize,
}

/// Why a line has no tokens.
#[derive(Clone, Copy, Debug, PartialEq, Eq, Error)]
pub enum TokenFault {
    /// A byte belongs to nothing.
    #[error("a byte of the line belongs to no token")]
    Bad(BadByte),
    /// There was not enough memory.
    #[error("out of memory")]
    Memory,
}

impl From<AllocError> for TokenFault {
    ghost use Rattle.text_base.specs.declared.token.TokenFault.TheVariants.{Memory};

    ghost from_gives = { λ _ e. e ≡ Memory };

    fn from(_e: AllocError) -> TokenFault {
        TokenFault::Memory
    }
}

impl<T: Drop> From<AllocFailed<T>> for TokenFault {
    ghost use Rattle.text_base.specs.declared.token.TokenFault.TheVariants.{Memory};

    ghost from_gives = { λ _ e. e ≡ Memory };

    fn from(_e: AllocFailed<T>) -> TokenFault {
        TokenFault::Memory
    }
}

/// What begins at a byte.
#[derive(Clone, Copy)]
pub enum Piece {
    Blank,
    Comment,
    /// A token, and how many bytes it has beside its first.
    Run(Kind, usize),
    Bad,
}

/// What begins with the first byte.
fn piece_of(first: u8, rest: &[u8]) -> Piece
    ensures value { result ≡ piece_of first rest.now }
    ensures within { StaysWithin result (length rest.now) }
{
    if is_blank(first) {
        return Piece::Blank;
    }
    if first == b'#' {
        return Piece::Comment;
    }
    if first.is_ascii_lowercase() {
        return Piece::Run(Kind::Word, word_len(rest));
    }
    if first.is_ascii_digit() {
        return Piece::Run(Kind::Number, digits_len(rest));
    }
    match (first, rest) {
        (b'-', [b'>', ..]) | (b'!', [b'=', ..]) => Piece::Run(Kind::Symbol, 1),
        _ => {
            if is_symbol(first) {
                Piece::Run(Kind::Symbol, 0)
            } else {
                Piece::Bad
            }
        }
    }
}

/// The first place whose byte may not stand in a comment.
fn bad_in_comment(bytes: &[u8]) -> Option<usize>
    ensures { result ≡ position (λ b. not (is_comment_byte b)) bytes.now }
{
    bytes.iter().position(|b| !is_comment_byte(*b))
}

/// What stands at a place, behind blanks.
#[derive(Clone, Copy)]
pub enum Next<'a> {
    End,
    Here(Token<'a>),
    Bad(BadByte),
}

/// What stands at a place, behind blanks.
pub fn next_from<'a>(line: &'a [u8], from: usize) -> Next<'a>
    requires { from ≤ length line.now }
    ensures { IsNext line.now from result }
{
    let mut at = from;
    'blanks: while at < line.len() {
        match piece_of(line[at], &line[at + 1..]) {
            Piece::Blank => at += 1,
            Piece::Comment => {
                return match bad_in_comment(&line[at..]) {
                    None => Next::End,
                    Some(k) => Next::Bad(BadByte { at: at + k }),
                };
            }
            Piece::Run(kind, more) => {
                let end = at + more + 1;
                return Next::Here(Token {
                    kind,
                    start: at,
                    end,
                    text: &line[at..end],
                });
            }
            Piece::Bad => return Next::Bad(BadByte { at }),
        }
    }
    Next::End
}

/// The tokens of a line, each as long as it can be, or the first byte that belongs to nothing.
pub fn tokens<'a>(alloc: Global, line: &'a [u8]) -> Result<Vec<Token<'a>>, TokenFault>
    ensures { Gives (λ v. map token_view v.items) result (tokens_of line.now) }
{
    let mut out = Vec::new(alloc);
    let mut at = 0;
    'tokens: loop {
        match next_from(line, at) {
            Next::End => return Ok(out),
            Next::Bad(bad) => return Err(TokenFault::Bad(bad)),
            Next::Here(token) => {
                out.push(token)?;
                at = token.end;
            }
        }
    }
}

/// Each token is a part of its line, and begins behind the one before it.
pub fn tokens_are_parts()
    ensures { (line : List ℕ) (ts : List Tok) → tokens_of line ≡ Ok ts →
        AllByRecursion (IsPartOf line) ts × Rise 0 ts }
{}

/// Each token's bytes are of its kind: a word, one or more digits, or one of the eight symbols.
pub fn tokens_are_of_their_kinds()
    ensures { (line : List ℕ) (ts : List Tok) → tokens_of line ≡ Ok ts →
        AllByRecursion IsOfItsKind ts }
{}

/// Nothing of a line is left out: each place is in a token, a blank or in the comment, or the line stops at the first byte
/// that belongs to nothing, behind tokens that are as long as they can be. No token stands in the comment.
pub fn tokens_cover()
    ensures all { (line : List ℕ) (ts : List Tok) → tokens_of line ≡ Ok ts → (k : ℕ) →
        k < length line → BelongsToLine line ts k }
    ensures comment { (line : List ℕ) (ts : List Tok) → tokens_of line ≡ Ok ts → (j : ℕ) →
        BeginsComment line ts j → AllByRecursion (StandsBefore j) ts }
    ensures stops { (line : List ℕ) (at : ℕ) → tokens_of line ≡ Err at → StopsAt line at }
{}

/// Each token is as long as it can be.
pub fn tokens_are_longest()
    ensures { (line : List ℕ) (ts : List Tok) → tokens_of line ≡ Ok ts →
        AllByRecursion (IsLongest line) ts }
{}
