//! Values that their formats write into an image, whether they fit it or not.

use crate::choices::Choices;
use crate::image::{part, put};
use layout::{BlockNumber, Body, Entry, INODE_BYTES, Inode, InodeNumber, Layout, Pointer};
use model::NAME_BYTES;

/// `links AT N`, `block AT N`: the inode that stands there gets so many links, or this first block.
pub fn put_inode(choices: &mut Choices, image: &mut Vec<u8>, verb: &str, words: &str) -> bool {
    let [Some(at), Some(value), _] = choices.numbers(words) else {
        return false;
    };
    let Some(bytes) = part(image, at, INODE_BYTES as u32) else {
        return false;
    };
    let Some(mut inode) = Inode::read(bytes, Layout::Plain) else {
        return false;
    };
    match &mut inode.body {
        Body::Pointers(pointers) if verb == "block" => {
            pointers[0] = Pointer::Block(BlockNumber::new(value));
        }
        _ => inode.links = value,
    }
    let mut bytes = [0; INODE_BYTES];
    inode.write(&mut bytes);
    put(image, at, &bytes)
}

/// `entry AT NUMBER NAME`: a name of a directory that leads to this number.
pub fn put_entry(choices: &mut Choices, image: &mut Vec<u8>, words: &str) -> bool {
    let [Some(at), Some(number), _] = choices.numbers(words) else {
        return false;
    };
    let Some((_, name)) = words.rsplit_once(' ') else {
        return false;
    };
    if name.len() > NAME_BYTES {
        return false;
    }
    let entry = Entry {
        number: InodeNumber::new(number),
        name: name.as_bytes(),
    };
    let mut bytes = [0; 300];
    let count = entry.encoded_len();
    if count > bytes.len() {
        return false;
    }
    entry.write(&mut bytes);
    put(image, at, &bytes[..count])
}
