//! Tokens printed with a blank between two words.

ghost use Rattle.std.specs.Prelude.{◌≡◌, OnOk};
ghost use Rattle.text_base.specs.Lexemes.{word, number, symbol};
ghost use Rattle.model_syntax.specs.Drafts.{blank, with_token, with_end};

use cca_base::List;
use std::alloc::{AllocError, Global};
use std::marker::Model;

/// A text that is made token by token.
#[derive(Drop)]
pub struct Printer {
    text: Vec<u8, Global>,
    /// Whether the last token of the line is a word or a number.
    plain: bool,
}

impl Model for Printer {
    ghost use Rattle.model_syntax.specs.Drafts.{Draft};

    ghost Value = { Draft };

    ghost view = { λ p. record { text = p.text.items; plain = p.plain } };
}

impl Printer {
    /// A printer without any text, which takes no memory.
    pub fn new(alloc: Global) -> Printer
        ensures { result ≡ blank }
    {
        Printer {
            text: Vec::new(alloc),
            plain: false,
        }
    }

    /// Puts a word or a number behind what is there.
    #[tactic(auto, unfolding(crate::specs::Drafts::with_token))]
    fn plain_token(&mut self, text: &[u8]) -> Result<(), AllocError>
        ensures word { OnOk result (self.new ≡ with_token self.old (word text.now)) }
        ensures number { OnOk result (self.new ≡ with_token self.old (number text.now)) }
    {
        if self.plain {
            self.text.push(b' ')?;
        }
        self.text.extend_from_slice(text)?;
        self.plain = true;
        Ok(())
    }

    /// Puts a word behind what is there.
    pub fn word(&mut self, text: &[u8]) -> Result<(), AllocError>
        ensures { OnOk result (self.new ≡ with_token self.old (word text.now)) }
    {
        self.plain_token(text)
    }

    /// Puts a number behind what is there, by its digits.
    pub fn number(&mut self, digits: &[u8]) -> Result<(), AllocError>
        ensures { OnOk result (self.new ≡ with_token self.old (number digits.now)) }
    {
        self.plain_token(digits)
    }

    /// Puts a symbol behind what is there.
    #[tactic(auto, unfolding(crate::specs::Drafts::with_token))]
    pub fn symbol(&mut self, text: &[u8]) -> Result<(), AllocError>
        ensures { OnOk result (self.new ≡ with_token self.old (symbol text.now)) }
    {
        self.text.extend_from_slice(text)?;
        self.plain = false;
        Ok(())
    }

    /// Ends the line.
    #[tactic(auto, unfolding(crate::specs::Drafts::with_end))]
    pub fn end_line(&mut self) -> Result<(), AllocError>
        ensures { OnOk result (self.new ≡ with_end self.old) }
    {
        self.text.push(b'\n')?;
        self.plain = false;
        Ok(())
    }

    /// The bytes of the text.
    pub fn into_text(self) -> List<u8>
        ensures { result ≡ self.text }
    {
        List::of(self.text)
    }
}
