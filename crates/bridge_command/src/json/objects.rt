//! Objects of JSON as they are put together, member by member.
ghost use Rattle.std.specs.List.{list_all};
ghost use Rattle.std.specs.Prelude.{◌≡◌, ◌++◌, [], ◌∷◌, codes, false, true, IfOk, OnOk};
ghost use Rattle.tool_text.specs.Lines.{is_text};
ghost use Rattle.serde_json.specs.Data.{no_members, number as number_data, object as object_data, put as with_member, string, unsigned};
ghost use Rattle.serde_json.specs.View.{view};
ghost use Rattle.serde_json.specs.Written.{members_have_float};
ghost use Rattle.bridge_command.specs.Members.{listed, members_seen, object_line, with_list_named, with_number_named, with_numbers, with_text_named, with_truth_named};

use seq_circle::NoMemory;
use serde_json::{Map, Value, push, put};
use std::alloc::Global;
use tool_text::put as put_bytes;

/// An object of JSON while its members are put together.
#[derive(Drop)]
pub(crate) struct Object {
    pub(crate) alloc: Global,
    pub(crate) members: Map<String, Value>,
}

/// A list of values while it is put together.
#[derive(Drop)]
pub(crate) struct Items {
    pub(crate) alloc: Global,
    pub(crate) values: Vec<Value>,
}

// A text as a value.
#[tactic(auto, using(crate::proofs::ObjectTexts::text_is_utf8))]
fn text_value(alloc: Global, text: &[u8]) -> Result<Value, NoMemory>
    requires { list_all is_text text.now ≡ true }
    ensures { IfOk result (λ v. view v ≡ string text.now) }
{
    let Ok(text) = str::from_utf8(text) else {
        unreachable!()
    };
    Ok(Value::try_from_str(alloc, text)?)
}

// Puts a line and its newline.
fn put_with_newline(text: &mut Vec<u8>, line: &[u8]) -> Result<(), NoMemory>
    ensures { OnOk result (text.new.items ≡ text.old.items ++ (line.now ++ codes "\n")) }
{
    put_bytes(text, line)?;
    put_bytes(text, b"\n")
}

impl Items {
    /// No values.
    pub(crate) fn new(alloc: Global) -> Items
        ensures { listed result ≡ [] }
    {
        Items {
            alloc,
            values: Vec::new(alloc),
        }
    }

    // Puts a value at the list's end. NoMemory comes if no memory was left, here and below.
    #[tactic(auto, using(crate::proofs::JsonLists::listed_so))]
    fn push(&mut self, value: Value) -> Result<(), NoMemory>
        ensures { OnOk result (listed self.new ≡ listed self.old ++ view value ∷ []) }
    {
        push(&mut self.values, value)?;
        Ok(())
    }

    /// Puts a number at the list's end.
    pub(crate) fn number(&mut self, number: u64) -> Result<(), NoMemory>
        ensures { OnOk result (listed self.new ≡ listed self.old ++ number_data (unsigned number) ∷ []) }
    {
        self.push(Value::from(number))
    }

    /// Puts an object at the list's end.
    pub(crate) fn object(&mut self, object: Object) -> Result<(), NoMemory>
        ensures { OnOk result (listed self.new ≡ listed self.old ++ object_data (members_seen object) ∷ []) }
    {
        self.push(Value::Object(object.members))
    }
}

impl Object {
    /// An object without members.
    pub(crate) fn new(alloc: Global) -> Object
        ensures { members_seen result ≡ no_members }
    {
        Object {
            alloc,
            members: Map::new(alloc),
        }
    }

    // Puts a value under this name.
    fn put(&mut self, name: &str, value: Value) -> Result<(), NoMemory>
        ensures { OnOk result (members_seen self.new ≡ with_member name.now (view value) (members_seen self.old)) }
    {
        put(&mut self.members, self.alloc, name, value)?;
        Ok(())
    }

    /// Puts a number under this name.
    pub(crate) fn number(&mut self, name: &str, number: u64) -> Result<(), NoMemory>
        ensures { OnOk result (members_seen self.new ≡ with_number_named name.now number (members_seen self.old)) }
    {
        self.put(name, Value::from(number))
    }

    /// Puts numbers under these names, one after the other.
    pub(crate) fn numbers(&mut self, numbers: &[(&'static str, u64)]) -> Result<(), NoMemory>
        ensures { OnOk result (members_seen self.new ≡ with_numbers numbers.now (members_seen self.old)) }
    {
        for named in numbers {
            self.number(named.0, named.1)?;
        }
        Ok(())
    }

    /// Puts true or false under this name.
    pub(crate) fn truth(&mut self, name: &str, is: bool) -> Result<(), NoMemory>
        ensures { OnOk result (members_seen self.new ≡ with_truth_named name.now is (members_seen self.old)) }
    {
        self.put(name, Value::Bool(is))
    }

    /// Puts a text under this name.
    pub(crate) fn text(&mut self, name: &str, text: &[u8]) -> Result<(), NoMemory>
        requires { list_all is_text text.now ≡ true }
        ensures { OnOk result (members_seen self.new ≡ with_text_named name.now text.now (members_seen self.old)) }
    {
        let value = text_value(self.alloc, text)?;
        self.put(name, value)
    }

    /// Puts a string under this name.
    pub(crate) fn string(&mut self, name: &str, text: &str) -> Result<(), NoMemory>
        ensures { OnOk result (members_seen self.new ≡ with_text_named name.now text.now (members_seen self.old)) }
    {
        let value = Value::try_from_str(self.alloc, text)?;
        self.put(name, value)
    }

    /// Puts a list under this name.
    pub(crate) fn list(&mut self, name: &str, items: Items) -> Result<(), NoMemory>
        ensures { OnOk result (members_seen self.new ≡ with_list_named name.now (listed items) (members_seen self.old)) }
    {
        self.put(name, Value::Array(items.values))
    }

    /// Puts the object, whose numbers are no floats, on a separate line at the text's end.
    pub(crate) fn put_line(self, text: &mut Vec<u8>) -> Result<(), NoMemory>
        requires { members_have_float (members_seen self) ≡ false }
        ensures { OnOk result (text.new.items ≡ text.old.items ++ object_line (members_seen self)) }
    {
        let line = Value::Object(self.members).to_vec(self.alloc)?;
        put_with_newline(text, &line)
    }
}
