//! Calls by a path over the image in memory: those that only look, and those that change something,
//! which are prepared as a record of the log with all memory taken and all blocks read. Each
//! answers as the definitions say, refusals in the order of their tests.
#![tactic(auto)]

mod changed;
mod leading;
mod made;
mod making;
mod preparing;
mod reading;
mod root;
mod seeing;
mod texts;

pub use changed::{Changing, EntryName, OwnedChange};
pub use made::{Creation, LinkText, OwnedObject};
pub use preparing::chmod::change_mode;
pub use preparing::chown::{change_owners, give_owners};
pub use preparing::link::link;
pub use preparing::mkdir::make_directory;
pub use preparing::open::{Opened, open_along};
pub use preparing::rename::rename;
pub use preparing::rmdir::remove_directory;
pub use preparing::set::{set, set_mode};
pub use preparing::store::{Storing, store};
pub use preparing::symlink::symlink;
pub use preparing::truncate::{refusal_of_size, truncate, truncate_file};
pub use preparing::unlink::unlink;
pub use preparing::utimens::{change_times, give_time, refusal_of_time};
pub use reading::attr::{attr, attr_number};
pub use reading::extent::extent;
pub use reading::get::get;
pub use reading::list::list;
pub use reading::readlink::readlink;
pub use reading::stat::{lstat, stat, stat_number};
pub use reading::tell_entries::entries;
pub use seeing::reading_forgets_open_files;
pub use texts::refusal_of_path;
