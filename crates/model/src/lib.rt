//! The meaning of the calls (model): their words, their replies and their refusals. What a call
//! means stands in `specs/`.
#![tactic(auto)]

mod attributes;
mod command;
mod cookies;
mod costs;
mod entries;
mod errno;
mod laws;
mod limits;
mod mode;
mod reply;
mod session;
mod text;
mod time;

pub use attributes::{Attributes, Permissions, Touch};
pub use command::{Access, Command, Flags, NewTime, PathCall, Settings, Whence};
pub use cookies::cookie_of;
pub use costs::Costs;
pub use entries::{Entries, Entry};
pub use errno::Errno;
pub use laws::{
    commands_are_bounded, commands_have_one_outcome, commands_refuse_by_their_own,
    mounts_find_volumes, mounts_forget_open_files, numbers_tell_what_lies_below,
    outcomes_are_states, parts_tell_names_once, path_calls_are_bounded, records_change_trees,
    records_keep_volumes, refusals_change_nothing, replays_cost_the_same, replays_end_same,
    replays_follow, replays_keep_volumes, resolution_is_by_numbers, resolution_is_from_numbers,
    sweeps_keep_volumes, trails_tell_what_lies_below, volumes_are_trees,
    volumes_tell_fresh_numbers, volumes_tell_links, volumes_tell_numbers,
    volumes_tell_used_numbers,
};
pub use limits::{
    ENTRIES_TOLD, FIRST_NUMBER, GREATEST_GENERATION, GREATEST_OFFSET, GREATEST_OWNER, LINK_MODE,
    LINKS_FOLLOWED, Limits, MODE_BITS, MOST_CREATIONS, MOST_NANOSECONDS, NAME_BYTES, OPEN_FILES,
    ROOT_NUMBER, SESSION_FILES, SNAPSHOT_NAME_BYTES, TRANSFER_BYTES,
};
pub use mode::Mode;
pub use reply::{Extent, FileType, Reply, Stat, Usage};
pub use session::Session;
pub use text::{Bytes, Names, Text};
pub use time::{Nanoseconds, Time};
