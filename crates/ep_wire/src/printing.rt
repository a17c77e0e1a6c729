//! JSON that is written member by member.

ghost use Rattle.std.specs.Prelude.{◌≡◌, ◌<◌, ◌^◌, length, ◌∷◌, ◌++◌, [], codes, option_and_then, option_map, IfOk, IfSome, OnOk, string_bytes};
ghost use Rattle.json.specs.Lex.{tokens};
ghost use Rattle.json.specs.Print.{IsPrintable, print};
ghost use Rattle.json.specs.Reads.{token_of};
ghost use Rattle.json.specs.Token.{begin_object, end_object, key};
ghost use Rattle.json.specs.Tree.{members_tokens};
ghost use Rattle.serde_json.specs.Data.{array, boolean, item, no_items, string};
ghost use Rattle.serde_json.specs.Find.{as_object, get};
ghost use Rattle.serde_json.specs.View.{members_view, view};
ghost use Rattle.serde_json.specs.Written.{members_outline};
ghost use Rattle.ep_pool.specs.Json.{pool_json};
ghost use Rattle.ep_wire_words.specs.Json.{session, text, texts, whole};
ghost use Rattle.ep_wire_words.specs.Members.{name};
ghost use Rattle.ep_wire_words.specs.ClientJson.{if_some};
ghost use Rattle.ep_wire.specs.Tokens.{IfFits, field, fields, pool_of, said};

use ep_pool::Pool;
use ep_units::{NoMemory, Session, Units};
use ep_wire_words::Member;
use ep_wire_words::session::session_text;
use json::{Token, Writer};
use serde_json::{Map, Value};
use std::alloc::Global;
use std::marker::Model;

/// How many bytes are taken at first: more than most messages have.
const ROOM: usize = 512;

/// JSON as far as it is written, which contracts see as its tokens.
#[derive(Drop)]
pub struct Out {
    alloc: Global,
    writer: Writer,
}

impl Model for Out {
    ghost use Rattle.std.specs.Prelude.{◌≡◌, [], List};
    ghost use Rattle.json.specs.Token.{Token, tokens_code};

    ghost Value = { List Token };

    ghost coded = { tokens_code };

    ghost view = { λ o. o.writer.tokens };

    ghost invariant = { λ o. o.writer.before ≡ [] };
}

impl Out {
    pub fn new(alloc: Global) -> Result<Out, NoMemory>
        ensures { IfOk result (λ o. o ≡ []) }
    {
        let bytes = Vec::with_capacity(alloc, ROOM)?;
        Ok(Out {
            alloc,
            writer: Writer::new(bytes),
        })
    }

    /// The text of it.
    pub fn finish(self) -> String
        ensures text { string_bytes result ≡ print self }
        ensures tokens { tokens (string_bytes result) ≡ self }
    {
        let Out { writer, .. } = self;
        let bytes = writer.into_inner();
        unsafe { String::from_utf8_unchecked(bytes) }
    }

    fn put(&mut self, token: Token<'_>) -> Result<(), NoMemory>
        requires { IsPrintable (token_of token) }
        ensures { OnOk result (self.new ≡ self.old ++ token_of token.entry ∷ []) }
    {
        self.writer.token(token)?;
        Ok(())
    }

    pub fn begin(&mut self) -> Result<(), NoMemory>
        ensures { OnOk result (self.new ≡ self.old ++ begin_object ∷ []) }
    {
        self.put(Token::BeginObject)
    }

    pub fn end(&mut self) -> Result<(), NoMemory>
        ensures { OnOk result (self.new ≡ self.old ++ end_object ∷ []) }
    {
        self.put(Token::EndObject)
    }

    /// Begins a message whose members stand in its `data`.
    pub fn begin_data(&mut self) -> Result<(), NoMemory>
        ensures { OnOk result (self.new ≡ self.old ++ begin_object ∷ (key (name Member.Data) ∷ (begin_object ∷ []))) }
    {
        self.begin()?;
        self.open(Member::Data)
    }

    /// Ends such a message of this kind.
    pub fn end_data(&mut self, kind: &str) -> Result<(), NoMemory>
        ensures { OnOk result (self.new ≡ self.old ++ end_object ∷ (field Member.Type (string kind.now) ++ end_object ∷ [])) }
    {
        self.end()?;
        self.word(Member::Type, kind)?;
        self.end()
    }

    /// Begins the object that is a member.
    pub fn open(&mut self, member: Member) -> Result<(), NoMemory>
        ensures { OnOk result (self.new ≡ self.old ++ key (name member) ∷ (begin_object ∷ [])) }
    {
        self.put(Token::Key(member.name()))?;
        self.begin()
    }

    fn number(&mut self, number: u64) -> Result<(), NoMemory>
        ensures { OnOk result (self.new ≡ self.old ++ said (whole number)) }
    {
        self.writer.u64(number)?;
        Ok(())
    }

    pub fn whole(&mut self, member: Member, number: u64) -> Result<(), NoMemory>
        ensures { OnOk result (self.new ≡ self.old ++ field member (whole number)) }
    {
        self.put(Token::Key(member.name()))?;
        self.number(number)
    }

    pub fn flag(&mut self, member: Member, flag: bool) -> Result<(), NoMemory>
        ensures { OnOk result (self.new ≡ self.old ++ field member (boolean flag)) }
    {
        self.put(Token::Key(member.name()))?;
        self.put(Token::Bool(flag))
    }

    pub fn word(&mut self, member: Member, word: &str) -> Result<(), NoMemory>
        ensures { OnOk result (self.new ≡ self.old ++ field member (string word.now)) }
    {
        self.put(Token::Key(member.name()))?;
        self.put(Token::String(word))
    }

    fn text(&mut self, units: &Units) -> Result<(), NoMemory>
        ensures { OnOk result (self.new ≡ self.old ++ said (text units.now)) }
    {
        let text = units.to_text_lossy(self.alloc)?;
        self.put(Token::String(text.as_str()))
    }

    pub fn units(&mut self, member: Member, units: &Units) -> Result<(), NoMemory>
        ensures { OnOk result (self.new ≡ self.old ++ field member (text units.now)) }
    {
        self.put(Token::Key(member.name()))?;
        self.text(units)
    }

    pub fn session(&mut self, member: Member, at: Session) -> Result<(), NoMemory>
        ensures { OnOk result (self.new ≡ self.old ++ field member (session at)) }
    {
        let text = session_text(self.alloc, at)?;
        self.word(member, text.as_str())
    }

    pub fn whole_if(&mut self, member: Member, number: Option<u64>) -> Result<(), NoMemory>
        ensures tokens { OnOk result (self.new ≡ self.old ++ fields (if_some member whole number)) }
        ensures fits { OnOk result (IfFits number) }
    {
        match number {
            Some(number) => self.whole(member, number),
            None => Ok(()),
        }
    }

    pub fn units_if(&mut self, member: Member, units: &Option<Units>) -> Result<(), NoMemory>
        ensures { OnOk result (self.new ≡ self.old ++ fields (if_some member text units.now)) }
    {
        match units {
            Some(units) => self.units(member, units),
            None => Ok(()),
        }
    }

    pub fn texts(&mut self, member: Member, all: &[Units]) -> Result<(), NoMemory>
        ensures { OnOk result (self.new ≡ self.old ++ field member (texts all.now)) }
    {
        self.put(Token::Key(member.name()))?;
        self.put(Token::BeginArray)?;
        for units in all {
            self.text(units)?;
        }
        self.put(Token::EndArray)
    }

    fn entry(&mut self, number: &str, pair: &Value) -> Result<(), NoMemory>
        ensures { OnOk result (self.new ≡ self.old ++ key number.now ∷ said (view pair.now)) }
    {
        let Some((name, value)) = two_texts(pair) else {
            return Err(NoMemory);
        };
        self.put(Token::Key(number))?;
        self.put(Token::BeginArray)?;
        self.put(Token::String(name))?;
        self.put(Token::String(value))?;
        self.put(Token::EndArray)
    }

    /// The entries of a pool's JSON, up to the end of their object.
    fn entries(&mut self, entries: &Map<String, Value>) -> Result<(), NoMemory>
        ensures { OnOk result (self.new ≡ self.old ++ members_tokens (members_outline (members_view entries.now.entries))) }
    {
        for (number, pair) in entries.iter() {
            self.entry(number.as_str(), pair)?;
        }
        self.end()
    }

    /// The member that is a pool of so many pairs, with the entries of its JSON.
    fn pool_of(&mut self, count: u64, entries: &Map<String, Value>) -> Result<(), NoMemory>
        ensures { OnOk result (self.new ≡ self.old ++ field Member.Apool (pool_of count (members_view entries.now.entries))) }
    {
        self.open(Member::Apool)?;
        self.put(Token::Key("nextNum"))?;
        self.number(count)?;
        self.put(Token::Key("numToAttrib"))?;
        self.begin()?;
        self.entries(entries)?;
        self.end()?;
        Ok(())
    }

    pub fn pool(&mut self, pool: &Pool) -> Result<(), NoMemory>
        ensures tokens { OnOk result (self.new ≡ self.old ++ field Member.Apool (pool_json pool.now.pairs)) }
        ensures few { OnOk result (length pool.now.pairs < 2 ^ 64) }
    {
        let json = pool.to_json(self.alloc)?;
        let Some(entries) = entries_of(&json) else {
            return Err(NoMemory);
        };
        self.pool_of(u64::from(pool.len()), entries)?;
        Ok(())
    }
}

/// The entries in a pool's JSON.
fn entries_of(pool: &Value) -> Option<&Map<String, Value>>
    ensures { option_map (λ m. members_view m.now.entries) result ≡ option_and_then as_object (get (codes "numToAttrib") (view pool.now)) }
{
    match pool.get("numToAttrib") {
        Some(entries) => entries.as_object(),
        None => None,
    }
}

/// The two texts that a pair's JSON is.
fn two_texts(pair: &Value) -> Option<(&str, &str)>
    ensures { IfSome result (λ t. view pair.now ≡ array (item (string t.0.now) (item (string t.1.now) no_items))) }
{
    match pair {
        Value::Array(texts) => match texts.as_slice() {
            [Value::String(key), Value::String(value)] => Some((key.as_str(), value.as_str())),
            _ => None,
        },
        _ => None,
    }
}
