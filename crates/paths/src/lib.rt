//! The path resolution: where paths lead in an image. Each part is looked up by numbers, with the
//! trail of the directories walked through. What is looked at comes into memory; nothing else
//! changes.
#![tactic(auto)]

mod loading;
mod lookup;
mod place;
mod resolution;
mod step;
mod text;
mod trail;
mod walk;

pub use loading::{load, object};
pub use lookup::{Found, list, list_numbered, number_at, object_at, text_at};
pub use place::{Place, Target};
pub use resolution::{resolve, resolve_place};
pub use text::{Parts, refusal_of_new_text, refusal_of_text};
pub use trail::Trail;
