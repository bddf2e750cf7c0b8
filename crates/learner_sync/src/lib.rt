//! How an observer follows its leader: what it does for each packet, and for each part of an image.
//!
//! A `Learner` knows how far a leader was followed: the phase between the two, the epochs, the last zxid, and the
//! transactions that were applied since the base. `step` takes the next item of the leader's stream and returns the
//! acts to do, in order; or it refuses the item and is as it was. The tree is kept elsewhere: `Apply` refers to the
//! log's last transaction, and an image is loaded part by part.
//!
//! ```text
//! send(learner.start(alloc, server_id)?);                        // a leader has connected
//! for act in learner.step(alloc, item)?.into_vec() { .. }
//! learner.end();                                                 // it has left, or an item was refused
//! ```
//!
//! `specs/Messages.antt` defines what a packet means to an observer, `specs/Learn.antt` what is learnt of an item, and
//! `specs/Images.antt` what is learnt of a whole image. The laws in `law` hold for every learner that is made and
//! changed by these calls.
#![tactic(auto)]

mod act;
mod answers;
mod handshake;
pub mod law;
mod learner;
mod logged;
mod message;
mod phase;
mod record;
mod replay;
mod request;
mod step;
mod zxid;

pub use act::{Act, ActList};
pub use answers::{ping_answer, session_table};
pub use learner::Learner;
pub use phase::Phase;
pub use record::LearnerInfo;
pub use request::{request_of, session_question, session_request};
