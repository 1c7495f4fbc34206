//! What the help of each command says behind its options.

/// What the help of `wafl` says behind its commands.
pub const FIRST_STEPS: &str = "What to type first:
  wafl make disk nvram --new --blocks 1024 --inodes 128 --half 128k
  wafl do disk nvram mkdir /notes
  wafl put disk nvram notes.txt /notes/monday
  wafl do disk nvram list /notes
  wafl do disk nvram snap take monday
  wafl get disk nvram /notes/monday - --in monday
  wafl restore disk nvram monday /notes/monday
  wafl shell disk nvram
  wafl mount disk nvram folder

What was answered is kept: whatever stops the program or the machine, the next run finds it. With
--deferred, of run, shell, serve and mount, this is so after a moment: what is told there.
disk and nvram are one image: keep and copy them together, while nothing writes them.

wafl shell --help names all commands, with an example of each, and wafl put --help what put
does, and so of each. Paths are typed as they are, as in '/a b'; with --encoded they are spelled
as in a script, as in /a%20b. --wait waits for an image that another program has in use,
--wait=5 for 5 seconds at most; it stands anywhere before --, and for do before the command.

Where an image can't be mounted, wafl check tells the faults, and --salvage of get, df and do
reads what can be read.

wafl mount shows an image as a folder, for any program; wafl mount --help tells how. It is a word
of the script wafl, not of the program, as ./wafl prove and ./wafl install are.

The script ./wafl answers by a build without proofs until the program is proved, which goes on in the
background; ./wafl prove waits for that. With WAFL_UNPROVED=1 in the environment it proves nothing.";

/// What the help of `run`, `shell` and `do` says of commands: a line for each.
pub const COMMAND_NOTES: &str = "Commands, one a line, with an example of each:
  list PATH                   names in a directory: list /
  entries PATH COOKIE COUNT   names behind a cookie, and what lstat tells of each: entries / 0 100
  stat PATH                   what the path leads to, its number, kind, mode, links, size: stat /d/f
  lstat PATH                  the same of a last symbolic link itself: lstat /l
  attr PATH                   what stat tells, then owner, group and times: attr /d/f
  lattr PATH                  the same of a last symbolic link itself: lattr /l
  readlink PATH               the text of a symbolic link: readlink /l
  get PATH OFFSET COUNT       bytes of a file: get /f 0 65536
  mkdir PATH [MODE]           makes a directory, of mode 0755 or this one: mkdir /d 0700
  rmdir PATH                  takes an empty directory away: rmdir /d
  unlink PATH                 takes a file's name or a symbolic link away: unlink /f
  link PATH NEW               gives a file one more name: link /f /g
  symlink TEXT PATH           makes a symbolic link: symlink d/f /l
  rename PATH NEW             gives an object another name: rename /f /d/f
  renamenew PATH NEW          the same, where nothing has that name: renamenew /f /d/f
  chmod PATH MODE             changes the mode: chmod /f 0600
  chown PATH OWNER GROUP      changes owner and group, - leaves one as it is: chown /f 1000 -
  lchown PATH OWNER GROUP     the same of a last symbolic link itself: lchown /l 1000 100
  utimens PATH TIME           changes the time of the data, to now or another one: utimens /f now
  lutimens PATH TIME          the same of a last symbolic link itself: lutimens /l 5 7
  truncate PATH SIZE          gives a file another size: truncate /f 100
  set PATH MODE SIZE          gives a file both by one write, - leaves one as it is: set /f 0600 9
  store PATH OFFSET DATA      puts bytes in a file: store /f 4 64
  open PATH FLAGS [MODE]      opens a file and tells its descriptor: open /f rwc 0600
  openstat PATH FLAGS [MODE]  the same, and what fstat tells then: openstat /f r
  close FD                    gives a descriptor back: close 0
  read FD COUNT               bytes from the offset on: read 0 65536
  write FD DATA               puts bytes at the offset: write 0 616263
  pread FD OFFSET COUNT       bytes from another place on: pread 0 2 9
  pwrite FD OFFSET DATA       puts bytes at another place: pwrite 0 4 64
  lseek FD FROM OFFSET        moves the offset: lseek 0 set 1
  ftruncate FD SIZE           gives an open file another size: ftruncate 0 2
  fchmod FD MODE              changes the mode of an open file: fchmod 0 0640
  fchown FD OWNER GROUP       changes owner and group of an open file: fchown 0 - 100
  futimens FD TIME            changes the time of an open file's data: futimens 0 5 7
  fstat FD                    what stat tells, of an open file: fstat 0
  fattr FD                    what attr tells, of an open file: fattr 0
  fsync FD                    answered once all that was done is kept, as each command is: fsync 0
  extent PATH OFFSET          counts a file's stored blocks, finds data and a hole: extent /f 0
  at SECONDS NANOSECONDS      from here on calls come at this time, if the image keeps times: at 5 7
  as OWNER GROUP              from here on what calls make is theirs, if owners are kept: as 1000 100
  sync                        makes a consistency point: sync
  df                          tells the room of the disk: df
  statfs                      tells the room of the disk, and for how many files: statfs
  snap take NAME              keeps the tree as it stands under this name: snap take monday
  snap list                   names the snapshots, oldest first: snap list
  snap delete NAME            takes a snapshot away: snap delete monday
  snap restore NAME           makes the tree what it was under this name: snap restore monday
  in NAME ..                  list, entries, stat, lstat, attr, lattr, readlink or get there:
                              in monday get /f 0 9

FLAGS is r, w or rw, then some of: c makes a file where none is, x refuses one that is,
t cuts it to no bytes, a has each write go behind the last byte. A new file has mode 0644 or this one.
FROM is set, cur or end. DATA is two hexadecimal digits a byte, - for none.
SECONDS and NANOSECONDS count from the Epoch, SECONDS also below 0. TIME is these two, or now, the
time of the call, or omit, which leaves it as it is. A mount forgets what at and as said. An image
that keeps no owners and no times refuses by ENOTSUP what is about them.
Words stand one space apart; in a path a space is %20, a % is %25, and so each byte
but 0x21 to 0x7e is % and two lower-case hexadecimal digits. A default mode isn't written.

A path begins at /, or at the number that stat tells of something, wherever that stands by now:
lstat @17/name, get @17 0 9. Behind a number no symbolic link is followed, and .. is refused;
ESTALE says that nothing with a path has the number. A cookie comes from a name's bytes alone:
entries / 0 100 tells the first names, and those behind the last cookie that it told come next,
whatever names come and go meanwhile.

do takes paths, texts and names as you type them, as in wafl do disk nvram mkdir '/a b' 755;
with --encoded, before the command, its words are spelled as in a script, as in mkdir /a%20b.
Lines of shell are spelled as in a script, but for modes and carriage returns, which are taken
as you type them; help and quit are words of shell alone.

Each command is durable when its reply is printed: neither a kill nor a power cut loses it. With
--together shell answers lines that wait in a pipe behind one commit: for programs that send many
lines before they read, and as safe. With --deferred run and shell answer at once, and make durable
what was done at fsync and sync, within 100 milliseconds or as many as the number says, and at the
end. A kill or a power cut may lose the commands since, and none before them: for what can be done
once more, as filling an image. shell then needs lines: an empty one shows that time has passed, and
wafl, the script, sends it.

With --wait they wait while another program has the image in use, with --wait=5 for 5 seconds
at most; for do it stands before the command, as in wafl do --wait disk nvram list /.

Examples:
  wafl run disk nvram script
  wafl run disk nvram - --stop < script
  wafl run disk nvram - --cut 5 --bytes 1 < script
  wafl run disk nvram script --deferred
  wafl shell disk nvram
  wafl do disk nvram stat /d/f
  wafl do disk nvram in monday list '/a b'";

/// What the help of `make` says behind its options.
pub const MAKE_NOTES: &str =
    "N is a decimal number. With k, M or G behind it, it is as many times 1024, 1024 k or 1024 M; --blocks then is the disk's size in bytes, whole blocks of 4096. Files that are there are replaced, once the new ones are whole; on a terminal make says before what they are and asks, but with --force. With --new they aren't replaced. Nothing is printed.

With --wait it waits while another program has the files in use, with --wait=5 for 5 seconds at most.

Examples:
  wafl make disk nvram --new --blocks 64 --inodes 32 --half 131072
  wafl make disk nvram --new --blocks 4G --inodes 64k --half 1M";

/// What the help of `df` says behind its options.
pub const DF_NOTES: &str =
    "Prints the disk's blocks, those that are free, and those that are pledged for what the newest root doesn't hold. The image stays as it is, but where DISK.bad names sectors that can't be read: these become zeros in DISK.

With --wait it waits while another program has the image in use, with --wait=5 for 5 seconds at most.

Examples:
  wafl df disk nvram
  wafl df disk nvram --human";

/// What the help of `check` says behind its options.
pub const CHECK_NOTES: &str =
    "Prints ok, the newest root's generation, how many snapshots it has, how many records of the log it doesn't hold, and how many blocks are free; or bad, the number and the name of the first fault, with status 6. Standard error tells of each tree with a fault what was found. The image stays as it is, but where DISK.bad names sectors that can't be read: these become zeros in DISK.

Faults: 1 ROOTS, 2 SNAPROOT, 3 TREE, 4 SHARED, 5 MAPBIT, 6 INODEMAP, 7 DIR, 8 LINKS, 9 LOG.

With --wait it waits while another program has the image in use, with --wait=5 for 5 seconds at most.

Example:
  wafl check disk nvram";

/// What the help of `put` says behind its options.
pub const PUT_NOTES: &str =
    "A file that PATH leads to loses its bytes and gets these in their place, and keeps its mode; where nothing is there, one is made, of FILE's mode, or of 0644 from standard input. Where PATH leads to a directory, FILE's own name in it is meant. Whole blocks of zeros become holes. A pipe that gives no bytes empties no file that has some; an empty file does, and /dev/null. Where a call is refused that file stays as it was, and standard error tells the path, the refusal and the byte at which it came. On a terminal it tells how many MiB were written.

PATH is typed as it is, as in '/a b'; with --encoded it is spelled as in a script, as in /a%20b.
With --wait it waits while another program has the image in use, with --wait=5 for 5 seconds at most.

Examples:
  wafl put disk nvram notes.txt /notes
  wafl put disk nvram - /notes < notes.txt
  tar c folder | wafl put disk nvram - /folder.tar";

/// What the help of `get` says behind its options.
pub const GET_NOTES: &str =
    "A file FILE that is there is replaced once the new one is whole, in which whole blocks of zeros are holes, and keeps its mode; a new one gets the mode that the file has in the image. Where FILE is a folder, the file's own name in it is meant. Where a call is refused FILE stays as it was, or none is made, and standard error tells the path, the refusal and the byte at which it came. The image stays as it is, but where DISK.bad names sectors that can't be read: these become zeros in DISK. On a terminal it tells how many MiB were read.

PATH is typed as it is, as in '/a b'; with --encoded it and SNAPSHOT are spelled as in a script, as in /a%20b.
With --wait it waits while another program has the image in use, with --wait=5 for 5 seconds at most.

Examples:
  wafl get disk nvram /notes notes.txt
  wafl get disk nvram /notes - --in monday | wc -c
  wafl get disk nvram /notes notes.txt --salvage";

/// What the help of `restore` says behind its options.
pub const RESTORE_NOTES: &str =
    "Brings the file or the symbolic link that PATH names in SNAPSHOT into the running tree, under the same path or under NEWPATH, with its mode and its holes. What has that name there is gone, once the new one is whole; where it is a directory, the file's own name in it is meant. A directory of the snapshot is refused. Where a call is refused all stays as it was, and standard error tells the path, the refusal and the byte at which it came. On a terminal it tells how many MiB were written.

Paths are typed as they are, as in '/a b'; with --encoded they and SNAPSHOT are spelled as in a script, as in /a%20b.
With --wait it waits while another program has the image in use, with --wait=5 for 5 seconds at most.

Examples:
  wafl restore disk nvram monday /notes
  wafl restore disk nvram monday /notes /notes.of.monday";

/// What the help of `serve` says behind its options.
pub const SERVE_NOTES: &str =
    "It is what wafl mount starts, once it has the kernel's device: requests of the kernel's FUSE come by standard input, one by each read, and their answers go to standard output. It ends with status 0 when the folder is unmounted. What was answered is kept, but with --deferred; when it is killed, the folder answers nothing until it is unmounted, and the next mount finds all of it.

Calls that wait at the same time are done together, and are answered behind one commit. With --deferred each is answered at once, and is durable at the next fsync, close or statfs, at the first request behind so many milliseconds, where more than a MiB waits, and in the end; a kill or a power cut may lose those since, and none before them. The program can't wait by itself: where nobody asks for anything, somebody has to ask for the folder's free space once in so many milliseconds, as wafl mount has it done.

Owners and times are kept until it ends: they are N's and of the time of the mount, and what is set since. In .snapshot are the snapshots: mkdir takes one and rmdir deletes one.

With --wait it waits while another program has the image in use, with --wait=5 for 5 seconds at most.

Example, as root, where wafl mount isn't at hand:
  exec 3<>/dev/fuse
  mount -i -t fuse -o fd=3,rootmode=40000,user_id=0,group_id=0,default_permissions wafl /mnt
  wafl serve disk nvram <&3 >&3";
