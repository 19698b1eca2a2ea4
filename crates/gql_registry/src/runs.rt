//! Runs of stored operations. A run is prepared, which changes nothing, and then committed.
ghost use Rattle.std.specs.Prelude.{◌≡◌};
ghost use Rattle.std.specs.Option.{option_copied};
ghost use Rattle.serde_json.specs.View.{view};

use crate::calling::Ran;
use crate::refusal::Refusal;
use crate::registry::Registry;
use gql_stored::Additions;
use serde_json::Value;

/// The reply to a call of a stored operation, as JSON.
#[derive(Drop)]
pub struct Reply {
    pub body: Vec<u8>,
}

/// A run that is prepared: its reply, and room for what it is to add to the data.
#[derive(Drop)]
pub struct Prepared {
    reply: Reply,
    additions: Additions,
}

impl Prepared {
    ghost use Rattle.gql_registry.specs.Prepared.{body_of};

    /// The reply, as JSON.
    pub fn body(&self) -> &[u8]
        ensures { result.now ≡ body_of self.now }
    {
        self.reply.body.as_slice()
    }
}

impl Registry {
    ghost use Rattle.std.specs.Prelude.{◌≡◌, IfOk};
    ghost use Rattle.gql_registry.specs.Calls.{Answers, CallResult, effects_in, text_of};
    ghost use Rattle.gql_registry.specs.Prepared.{IsPreparedFor, added_by, answer_of, body_of, prepared_of};
    ghost use Rattle.gql_registry.specs.State.{pairs_of, shelf_of, state_of, with_effects};

    /// Prepares a run of the stored operation of a name, or without a name of the only one, with the
    /// values of its variables, which are an object or null, on the data. The refusals, in this
    /// order: 208 if there is no such operation; 209 if the schema, the operation or a fragment
    /// that it reaches has faults, with these faults; 213 if it is a subscription; 210 if more
    /// values are to be completed than the profile allows; and 211 if an allocation fails. Nothing
    /// is changed.
    pub fn prepare(&self, name: Option<&str>, variables: &Value) -> Result<Prepared, Refusal>
        ensures answers { Answers (state_of self.now).files (state_of self.now).stored
            (option_copied name.entry) (view variables.now) (prepared_of result) }
        ensures room { IfOk result (IsPreparedFor self.now) }
    {
        let stored = self.stored.get();
        let Ran { body, effects } = self.kept.answer_call(self.alloc, name, variables, stored)?;
        let additions = self.stored.prepare(self.alloc, effects)?;
        let reply = Reply { body };
        Ok(Prepared { reply, additions })
    }

    /// Adds what a prepared run is to add to the data, and returns its reply. The registry is as it
    /// was when the run was prepared. This takes no memory, and the revision stays.
    pub fn commit(&mut self, prepared: Prepared) -> Reply
        requires { IsPreparedFor self.old prepared }
        ensures reply { result.body.items ≡ body_of prepared }
        ensures state { state_of self.new ≡ with_effects (state_of self.old) (added_by prepared) }
        ensures shelf { shelf_of self.new ≡ shelf_of self.old }
        ensures pairs { pairs_of self.new ≡ pairs_of self.old }
    {
        let Prepared { reply, additions } = prepared;
        self.stored.commit(additions);
        reply
    }

    /// Runs the stored operation of a name, as `prepare` and `commit` do: what a mutation adds to
    /// the data is there when its reply is returned. A refused run changes nothing.
    pub fn run(&mut self, name: Option<&str>, variables: &Value) -> Result<Reply, Refusal>
        ensures answers { (r : CallResult)
            × Answers (state_of self.old).files (state_of self.old).stored
            (option_copied name.entry) (view variables.now) r
            × (text_of r ≡ answer_of result)
            × (state_of self.new ≡ with_effects (state_of self.old) (effects_in r)) }
        ensures shelf { shelf_of self.new ≡ shelf_of self.old }
        ensures pairs { pairs_of self.new ≡ pairs_of self.old }
    {
        let prepared = self.prepare(name, variables)?;
        Ok(self.commit(prepared))
    }
}
