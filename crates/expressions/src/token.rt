ghost use Rattle.std.specs.Prelude.{◌≡◌, ◌++◌, ◌∷◌, [], IfOk, OnOk, map};
ghost use Rattle.std.specs.List.{flat_map};
ghost use Rattle.reading.specs.Reading.{Gives, read_each};
ghost use Rattle.expressions.specs.Tokens.{is_memory, is_sign, apart, spread, digits, word, token};
ghost use Rattle.expressions.specs.Tokens.{tokens_of};

use crate::fault::ExprFault;
use preorder::{List, Name};
use reading::{number_in, words_of};
use std::alloc::{AllocError, Global};

// A sign, digits or a word of an expression's text.
#[derive(Clone, Copy)]
pub enum Token {
    Plus,
    Minus,
    Times,
    Open,
    Close,
    Comma,
    // The value, where one number stands for all that are too large, and how many digits there are.
    Digits(u64, usize),
    Word(Name),
}

fn is_sign(byte: u8) -> bool
    ensures { result ≡ is_sign byte }
{
    byte == b'+' || byte == b'-' || byte == b'*' || byte == b'(' || byte == b')' || byte == b','
}

// Writes a byte of a text, a sign between two blanks.
fn push_apart(out: &mut Vec<u8>, byte: u8) -> Result<(), AllocError>
    ensures { OnOk result (out.new.items ≡ out.old.items ++ apart byte) }
{
    if is_sign(byte) {
        out.push(b' ')?;
        out.push(byte)?;
        out.push(b' ')?;
    } else {
        out.push(byte)?;
    }
    Ok(())
}

// Writes a word with its signs between blanks.
fn push_word(out: &mut Vec<u8>, word: &[u8]) -> Result<(), AllocError>
    ensures { OnOk result (out.new.items ≡ out.old.items ++ flat_map apart word.now) }
{
    for byte in word {
        push_apart(out, *byte)?;
    }
    Ok(())
}

// The words with a blank after each and their signs between blanks.
fn spread(alloc: Global, words: &[&[u8]]) -> Result<Vec<u8>, AllocError>
    ensures { IfOk result (λ v. v.items ≡ spread (map (λ w. w.now) words.now)) }
{
    let mut out = Vec::new(alloc);
    for word in words {
        push_word(&mut out, word)?;
        out.push(b' ')?;
    }
    Ok(out)
}

#[tactic(auto, unfolding(crate::specs::Tokens::digits))]
fn digits_of(lexeme: &[u8]) -> Result<Token, ExprFault>
    ensures { Gives is_memory (λ t. t) result (digits lexeme.now) }
{
    match number_in(lexeme) {
        Some(value) => Ok(Token::Digits(value, lexeme.len())),
        None => Err(ExprFault::Syntax),
    }
}

#[tactic(auto, unfolding(crate::specs::Tokens::word))]
fn word_of(lexeme: &[u8]) -> Result<Token, ExprFault>
    ensures { Gives is_memory (λ t. t) result (word lexeme.now) }
{
    match Name::new(lexeme) {
        Some(name) => Ok(Token::Word(name)),
        None => digits_of(lexeme),
    }
}

// The token that a word without blanks is, its signs standing apart.
#[tactic(auto, unfolding(crate::specs::Tokens::token))]
fn token_of(lexeme: &[u8]) -> Result<Token, ExprFault>
    ensures { Gives is_memory (λ t. t) result (token lexeme.now) }
{
    if lexeme == b"+".as_slice() {
        Ok(Token::Plus)
    } else if lexeme == b"-".as_slice() {
        Ok(Token::Minus)
    } else if lexeme == b"*".as_slice() {
        Ok(Token::Times)
    } else if lexeme == b"(".as_slice() {
        Ok(Token::Open)
    } else if lexeme == b")".as_slice() {
        Ok(Token::Close)
    } else if lexeme == b",".as_slice() {
        Ok(Token::Comma)
    } else {
        word_of(lexeme)
    }
}

fn each_token(alloc: Global, lexemes: &[&[u8]]) -> Result<List<Token>, ExprFault>
    ensures { Gives is_memory (λ ts. ts) result (read_each token (map (λ w. w.now) lexemes.now)) }
{
    let mut tokens = List::new(alloc);
    for lexeme in lexemes {
        let token = token_of(lexeme)?;
        tokens.push(token)?;
    }
    Ok(tokens)
}

// The tokens of the text that the words spell.
#[tactic(auto, unfolding(crate::specs::Tokens::tokens_of))]
pub fn tokens_of(alloc: Global, words: &[&[u8]]) -> Result<List<Token>, ExprFault>
    ensures { Gives is_memory (λ ts. ts) result (tokens_of (map (λ w. w.now) words.now)) }
{
    let text = spread(alloc, words)?;
    let lexemes = words_of(alloc, text.as_slice())?;
    each_token(alloc, lexemes.as_slice())
}
