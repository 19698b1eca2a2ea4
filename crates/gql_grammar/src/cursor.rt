//! The cursor: the tokens that a parser still has to read.

ghost use Rattle.std.specs.Prelude.{◌≡◌, ◌+◌, ◌<◌, [], ◌∷◌, length, map, drop, OnErr, OnOk, OnSome, MatchOption};
ghost use Rattle.gql_text.specs.Lexeme.{lexeme};
ghost use Rattle.gql_grammar.specs.Symbol.{Gives, IsRest, before, end as no_tokens, kind_of, place_of, sees, sees_word, take_if, text_of, token, word};

use crate::error::Unexpected;
use gql_text::{Kind, Place, Token};
use std::marker::Model;

/// The tokens that are still to be read. Contracts see it as the list of them.
#[derive(Drop)]
pub struct Cursor<'a> {
    tokens: &'a [Token<'a>],
    at: usize,
}

impl<'a> Model for Cursor<'a> {
    ghost use Rattle.gql_text.specs.Lexeme.{Lexeme, lexeme};
    ghost use Rattle.std.specs.Prelude.{List, map, drop, ◌≤◌, length};

    ghost Value = { List Lexeme };

    ghost view = { λ c. map lexeme (drop c.at c.tokens.now) };

    ghost invariant = { λ c. c.at ≤ length c.tokens.now };
}

impl<'a> Cursor<'a> {
    /// A cursor at the first of the tokens.
    pub fn new(tokens: &'a [Token<'a>]) -> Cursor<'a>
        ensures { result ≡ map lexeme tokens.now }
    {
        Cursor { tokens, at: 0 }
    }

    /// How many tokens are left.
    #[tactic(auto, using(crate::proofs::Cursors::left_lem))]
    pub fn left(&self) -> usize
        ensures { result ≡ length self.now }
    {
        self.tokens.len() - self.at
    }

    /// The kind of the next token, `EndOfText` where none is left.
    pub fn kind(&self) -> Kind
        ensures { result ≡ kind_of self.now }
    {
        match token_at(self.tokens, self.at) {
            Some(token) => token.kind,
            None => Kind::EndOfText,
        }
    }

    /// The text of the next token, empty where none is left.
    pub fn text(&self) -> &str
        ensures { result.now ≡ text_of self.now }
    {
        match token_at(self.tokens, self.at) {
            Some(token) => token.text,
            None => "",
        }
    }

    /// Whether the next token is of this kind.
    #[tactic(auto, unfolding(crate::specs::Symbol::sees))]
    pub fn sees(&self, kind: Kind) -> bool
        ensures { result ≡ sees kind self.now }
    {
        self.kind().is(kind)
    }

    /// Whether the next token is of another kind, or none is left.
    #[tactic(auto, unfolding(crate::specs::Symbol::before))]
    pub fn before(&self, kind: Kind) -> bool
        ensures { result ≡ before kind self.now }
    {
        !self.sees(kind)
    }

    /// Whether the next token is this keyword, which is a name of that text.
    #[tactic(auto, unfolding(crate::specs::Symbol::sees_name))]
    pub fn sees_word(&self, word: &str) -> bool
        ensures { result ≡ sees_word word.now self.now }
    {
        self.sees(Kind::Name) && self.text() == word
    }

    /// The place of the next token, if one is left.
    pub fn place(&self) -> Option<Place>
        ensures { result ≡ place_of self.now }
    {
        match token_at(self.tokens, self.at) {
            Some(token) => Some(token.place),
            None => None,
        }
    }

    /// Takes the next token, if the caller has found that it passes.
    #[tactic(auto, using(crate::proofs::Rests::rest_after, crate::proofs::Rests::same_rest))]
    pub fn take_if(&mut self, pass: bool) -> Result<Token<'a>, Unexpected>
        ensures value { Gives lexeme (take_if pass self.old) result self.new }
        ensures shorter { OnOk result (length self.new < length self.old) }
        ensures kept { OnErr result (self.new ≡ self.old) }
        ensures rest { IsRest self.new self.old }
    {
        match token_at(self.tokens, self.at) {
            Some(token) if pass => {
                self.at += 1;
                Ok(token)
            }
            _ => Err(Unexpected),
        }
    }

    /// Takes a token of this kind.
    #[tactic(auto, unfolding(crate::specs::Symbol::token))]
    pub fn expect(&mut self, kind: Kind) -> Result<Token<'a>, Unexpected>
        ensures value { Gives lexeme ((token kind).read self.old) result self.new }
        ensures shorter { OnOk result (length self.new < length self.old) }
        ensures kept { OnErr result (self.new ≡ self.old) }
        ensures rest { IsRest self.new self.old }
    {
        let pass = self.sees(kind);
        self.take_if(pass)
    }

    /// Takes this keyword, which is a name of that text.
    #[tactic(auto, unfolding(crate::specs::Symbol::name_where))]
    pub fn expect_word(&mut self, spelling: &str) -> Result<Token<'a>, Unexpected>
        ensures value { Gives lexeme ((word spelling.now).read self.old) result self.new }
        ensures shorter { OnOk result (length self.new < length self.old) }
        ensures kept { OnErr result (self.new ≡ self.old) }
        ensures rest { IsRest self.new self.old }
    {
        let pass = self.sees_word(spelling);
        self.take_if(pass)
    }

    /// Ensures that no token is left.
    #[tactic(auto, using(crate::proofs::Outcomes::end_none, crate::proofs::Outcomes::end_some))]
    pub fn end(&self) -> Result<(), Unexpected>
        ensures value { Gives (λ u. u) (no_tokens.read self.now) result self.now }
        ensures none { OnOk result (self.now ≡ []) }
    {
        if self.left() == 0 {
            Ok(())
        } else {
            Err(Unexpected)
        }
    }
}

#[tactic(auto, using(crate::proofs::Cursors::at_token, crate::proofs::Cursors::at_end))]
fn token_at<'a>(tokens: &[Token<'a>], at: usize) -> Option<Token<'a>>
    ensures value { MatchOption result (map lexeme (drop at tokens.now) ≡ [])
        (λ t. map lexeme (drop at tokens.now) ≡ lexeme t ∷ map lexeme (drop (at + 1) tokens.now)) }
    ensures within { OnSome result (at < length tokens.now) }
{
    if at < tokens.len() {
        Some(tokens[at])
    } else {
        None
    }
}
