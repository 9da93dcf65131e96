//! What help says below the options.

pub(crate) const AFTER_HELP: &str = "\
A line of a script or a client is MOMENT UID:GID[,GROUP..] CALL. The calls:
  create PATH
  mkdir PATH
  write PATH OFFSET DATA
  fill PATH OFFSET COUNT BYTE
  truncate PATH SIZE
  read PATH OFFSET LENGTH
  stat PATH
  link FROM TO
  unlink PATH
  rmdir PATH
  rename FROM TO
  chown PATH UID GID [PROJECT]
  setquota KIND ID BSOFT BHARD ISOFT IHARD
  setgrace BLOCK INODE
  quota KIND ID
Moments and graces are seconds. DATA is hexadecimal digits, two a byte, or - for
no byte, and BYTE two of them. KIND is user, group or project. Limits of blocks
are KiB, those of inodes numbers, and 0 is none. An owner that chown has as -
stays, and so does a project that it does not name.

Example, a script of two lines:
  0 1001:100 create /notes
  0 1001:100 write /notes 0 68656c6c6f

Statuses:
  0  done, also where calls were refused
  1  with --strict: done, and a line was refused or failed
  2  the command line, the configuration, a script or the journal is at fault,
     or unreadable, or a client's stream
  3  memory or a thread is wanting, or a replay comes to another reply than its
     journal
  4  the output refuses, or the file for the journal, for the image or for
     boards, or a client's replies
  5  with --stop-at-failure: a client's line failed, and the service ended

docs/FORMATS.md has all formats, docs/RULES.md all rules of the calls, and
docs/USING.md tells how clients are served.";
