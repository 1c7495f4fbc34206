//! Calls that say something of the calls to come, served on a mounted system.

ghost use Rattle.std.specs.Prelude.{Ok};
ghost use Rattle.model.specs.declared.command.Command.TheVariants as command;
ghost use Rattle.dispatch.specs.Answering.{Answers};

use model::{Errno, Nanoseconds, Reply, Time};
use station::Station;
use system::System;

/// Answers `as`: what calls make from here on is of this owner and group. No memory is taken, and no
/// device is called.
pub(crate) fn say_owner<S: Station>(system: &mut System<S>, owner: u32, group: u32) -> Reply
    ensures { Answers system.old system.new (command.As owner group) (Ok result) }
{
    if !system.root.geometry.limits().has_attributes {
        return Reply::Refused(Errno::ENOTSUP);
    }
    system.session.owner = owner;
    system.session.group = group;
    Reply::Done
}

/// Answers `at`: from here on calls come at this time. No memory is taken, and no device is called.
pub(crate) fn say_time<S: Station>(system: &mut System<S>, seconds: i64, nanoseconds: u32) -> Reply
    ensures { Answers system.old system.new (command.At seconds nanoseconds) (Ok result) }
{
    if !system.root.geometry.limits().has_attributes {
        return Reply::Refused(Errno::ENOTSUP);
    }
    match Nanoseconds::new(nanoseconds) {
        Some(nanoseconds) => {
            system.session.time = Time {
                seconds,
                nanoseconds,
            };
            Reply::Done
        }
        None => Reply::Refused(Errno::EINVAL),
    }
}
