//! The laws of messages, over the definitions that the calls cite.

ghost use Rattle.std.specs.Prelude.{◌≡◌, ◌≤◌, ℕ, List, Result, Ok, Some, length};
ghost use Rattle.serde_json.specs.Read.{read};
ghost use Rattle.ep_wire_words.specs.declared.bad.WireBad.{WireBad};
ghost use Rattle.ep_wire_words.specs.declared.client.ClientMsg.{ClientMsg};
ghost use Rattle.ep_wire_words.specs.declared.server.ServerMsg.{ServerMsg};
ghost use Rattle.ep_wire_words.specs.Client.{ReadsClient};
ghost use Rattle.ep_wire_words.specs.ClientJson.{client_json};
ghost use Rattle.ep_wire_words.specs.Sent.{IsSentByClient, IsSentByServer};
ghost use Rattle.ep_wire_words.specs.Server.{ReadsServer};
ghost use Rattle.ep_wire_words.specs.ServerJson.{server_json};

/// No text has two answers.
pub fn a_text_has_one_answer()
    ensures client { (text : List ℕ) (limit : ℕ) (a b : Result ClientMsg WireBad)
        → ReadsClient text limit a → ReadsClient text limit b → a ≡ b }
    ensures server { (text : List ℕ) (limit : ℕ) (a b : Result ServerMsg WireBad)
        → ReadsServer text limit a → ReadsServer text limit b → a ≡ b }
{}

/// A text within the limit with the JSON of a client's message is read as that message.
pub fn client_is_read_again()
    ensures { (m : ClientMsg) (text : List ℕ) (limit : ℕ) → IsSentByClient m
        → read text ≡ Some (client_json m) → length text ≤ limit → ReadsClient text limit (Ok m) }
{}

/// The same of a server's message.
pub fn server_is_read_again()
    ensures { (m : ServerMsg) (text : List ℕ) (limit : ℕ) → IsSentByServer m
        → read text ≡ Some (server_json m) → length text ≤ limit → ReadsServer text limit (Ok m) }
{}
