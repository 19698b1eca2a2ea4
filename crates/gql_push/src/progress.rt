//! How a push goes on: one request for all edits is sent; or one edit, and the next one only once that
//! is made.
ghost use Rattle.std.specs.Prelude.{◌≡◌, ◌&&◌, ◌==◌, None, option_map};
ghost use Rattle.gql_push.specs.Plans.{change_of, changes_of};
ghost use Rattle.gql_push.specs.Sending as spec;

use crate::body::Reply;
use crate::edits::Edit;

/// Why a push stops before all of its edits are made.
#[derive(Drop)]
pub enum Stop {
    /// Somebody else has edited the registry, which is at this revision.
    Edited {
        revision: u64,
    },
    /// An edit is refused: the number, the message, and the file that is refused, where the answer
    /// names one.
    Refused {
        number: u64,
        message: String,
        file: Option<String>,
    },
    /// An answer is not one of a registry.
    Strange,
}

/// How far a push has come: how many of its edits are made, the revision of the registry and the
/// number of its faults after the last of them, and why the push has stopped, if it has.
#[derive(Drop)]
pub struct Progress {
    made: usize,
    revision: u64,
    faults: u64,
    stop: Option<Stop>,
}

/// What is sent: an edit, and the revision that it expects.
#[derive(Clone, Copy)]
pub struct Sent<'e> {
    pub edit: &'e Edit,
    pub revision: u64,
}

/// The number of the refusal of a removal: there is no file of the name.
const NO_SUCH_FILE: u64 = 204;

/// Whether an edit removes a file.
fn is_removal(edit: &Edit) -> bool
    ensures { result ≡ spec.is_removal (change_of edit.now) }
{
    matches!(edit, Edit::Remove(_))
}

/// Whether the registry has no file to remove, so that the removal is done.
fn is_gone_already(edit: &Edit, number: u64) -> bool
    ensures { result ≡ spec.is_gone_already (change_of edit.now) number }
{
    is_removal(edit) && number == NO_SUCH_FILE
}

/// The numbers of refusals of one request for all edits after which a push goes on one by one: the
/// registry has no such request, it does not read a body of this length, or of this form.
const NO_SUCH_REQUEST: u64 = 305;

const BODY_TOO_LONG: u64 = 303;

const BAD_BATCH: u64 = 312;

/// Whether a push goes on one by one after a refusal of this number of one request for all edits.
fn goes_on(number: u64) -> bool
    ensures { result ≡ spec.goes_on number }
{
    number == NO_SUCH_REQUEST
        || number == BODY_TOO_LONG
        || number == BAD_BATCH
        || number == NO_SUCH_FILE
}

impl Progress {
    ghost use Rattle.std.specs.Prelude.{◌≡◌, ◌+◌, ◌<◌, None, Some, option_map, length};
    ghost use Rattle.gql_push.specs.Plans.{change_of, changes_of};
    ghost use Rattle.gql_push.specs.Sending as spec;

    /// The start of a push, where the registry is at this revision and has so many faults.
    pub fn new(revision: u64, faults: u64) -> Progress
        ensures { result ≡ spec.start revision faults }
    {
        Progress {
            made: 0,
            revision,
            faults,
            stop: None,
        }
    }

    /// How many edits are made: those at the front.
    pub fn made(&self) -> usize
        ensures { result ≡ self.now.made }
    {
        self.made
    }

    /// The revision of the registry after the last edit that was made.
    pub fn revision(&self) -> u64
        ensures { result ≡ self.now.revision }
    {
        self.revision
    }

    /// The number of the registry's faults after the last edit that was made.
    pub fn faults(&self) -> u64
        ensures { result ≡ self.now.faults }
    {
        self.faults
    }

    /// Why the push has stopped, if it has.
    pub fn stop(&self) -> &Option<Stop>
        ensures { result.now ≡ self.now.stop }
    {
        &self.stop
    }

    /// What is sent next: the first edit that is not made, expecting the revision after the last
    /// one that is. None if all edits are made, or the push has stopped.
    pub fn next<'e>(&self, edits: &'e [Edit]) -> Option<Sent<'e>>
        ensures { option_map spec.sending_of result ≡ spec.next (changes_of edits.now) self.now }
    {
        if self.stop.is_some() {
            return None;
        }
        match edits.get(self.made) {
            Some(edit) => Some(Sent {
                edit,
                revision: self.revision,
            }),
            None => None,
        }
    }

    /// Goes on to so many edits that are made: the registry has this revision and so many faults.
    fn reach(&mut self, made: usize, revision: u64, faults: u64)
        ensures { self.new
            ≡ record self.old { made = made; revision = revision; faults = faults } }
    {
        self.made = made;
        self.revision = revision;
        self.faults = faults;
    }

    /// Goes on after an edit that is made: the registry has this revision and so many faults.
    fn go_on(&mut self, revision: u64, faults: u64)
        requires { self.old.made < usize.MAX }
        ensures { self.new ≡ spec.further self.old revision faults }
    {
        self.reach(self.made + 1, revision, faults);
    }

    /// Notes the reply to an edit that was sent.
    fn note_reply(&mut self, edit: &Edit, reply: Reply)
        requires { self.old.made < usize.MAX }
        ensures { self.new ≡ spec.replied self.old (change_of edit.now) reply }
    {
        match reply {
            Reply::Done { revision, faults } => self.go_on(revision, faults),
            Reply::Stale { revision } => self.stop = Some(Stop::Edited { revision }),
            Reply::Refused {
                number,
                message,
                file,
            } => {
                if is_gone_already(edit, number) {
                    self.go_on(self.revision, self.faults);
                } else {
                    self.stop = Some(Stop::Refused {
                        number,
                        message,
                        file,
                    });
                }
            }
            Reply::Strange => self.stop = Some(Stop::Strange),
        }
    }

    /// Notes the reply to what was sent last. Nothing is noted if nothing is to be sent.
    pub fn note(&mut self, edits: &[Edit], reply: Reply)
        ensures { self.new ≡ spec.noted (changes_of edits.now) self.old reply }
    {
        if let Some(sent) = self.next(edits) {
            self.note_reply(sent.edit, reply);
        }
    }

    /// Whether one request for all edits may be sent.
    fn may_send_all(&self, edits: &[Edit]) -> bool
        ensures { result ≡ spec.may_send_all (changes_of edits.now) self.now }
    {
        self.stop.is_none() && self.made == 0 && edits.len() > 1
    }

    /// The revision that one request for all edits expects. None if there is at most one edit, some
    /// are made, or the push has stopped.
    pub fn together(&self, edits: &[Edit]) -> Option<u64>
        ensures { result ≡ spec.together (changes_of edits.now) self.now }
    {
        if self.may_send_all(edits) {
            Some(self.revision)
        } else {
            None
        }
    }

    /// Goes on after all edits are made: the registry has this revision and so many faults.
    fn end(&mut self, edits: &[Edit], revision: u64, faults: u64)
        ensures { self.new ≡ record self.old {
          made = length (changes_of edits.now);
          revision = revision;
          faults = faults;
        } }
    {
        self.reach(edits.len(), revision, faults);
    }

    /// Notes the reply to one request for all edits.
    fn note_reply_together(&mut self, edits: &[Edit], reply: Reply)
        ensures { self.new ≡ spec.replied_together (changes_of edits.now) self.old reply }
    {
        match reply {
            Reply::Done { revision, faults } => self.end(edits, revision, faults),
            Reply::Stale { revision } => self.stop = Some(Stop::Edited { revision }),
            Reply::Refused {
                number,
                message,
                file,
            } => {
                if !goes_on(number) {
                    self.stop = Some(Stop::Refused {
                        number,
                        message,
                        file,
                    });
                }
            }
            Reply::Strange => self.stop = Some(Stop::Strange),
        }
    }

    /// Notes the reply to one request for all edits: an accepted one makes all of them. After some
    /// refusals the push goes on one by one, and any other one stops it. Nothing is noted if no such
    /// request may be sent.
    pub fn note_together(&mut self, edits: &[Edit], reply: Reply)
        ensures { self.new ≡ spec.noted_together (changes_of edits.now) self.old reply }
    {
        if self.may_send_all(edits) {
            self.note_reply_together(edits, reply);
        }
    }
}
