//! What the help says of the help and of the version.

/// The page of `help`.
pub const HELP: &str = "\
Without a word it writes a line for each command. NAME is a command, as check:
then it writes what the command takes, what it answers and writes, and an
example.

There are no options. A word that is empty or begins with - is no word of a
command. Exit statuses of all commands:

  0  the output is the text of the command
  1  a file has an error or is missing; standard error has one line
  2  the words are no command
  3  the system could not read a file
  4  the output could not be written
  5  there was too little memory
  6  the output is a verdict: a violation, a difference, a fault

Example:
$ tydi help version | head -n 1
tydi version
";

/// The page of `version`.
pub const VERSION: &str = "\
It takes no words, and writes two lines: tydi and its version; and the kit that
proves it, with the sum of the logic in which it is proved. The command rt of
this kit writes the same line: rt version.

Exit status: 0.

Example:
$ tydi version | cut -d ' ' -f 1
tydi
rattle-kit-13f
";
