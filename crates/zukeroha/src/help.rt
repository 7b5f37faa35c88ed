// What 'zukeroha help' prints.
pub const TEXT: &str =
    "zukeroha tags payroll files with SMAC, checks such tags, and seals files into
sections that are encrypted and tagged.

  zukeroha tag [options] FILE              print the tag of FILE
  zukeroha check --tag HEX [options] FILE  say whether HEX is the tag of FILE
  zukeroha seal [options] IN OUT           write to OUT the section that holds IN
  zukeroha open [options] IN OUT           write to OUT what the section IN holds
  zukeroha help                            print this text

FILE and IN may be '-' for standard input. Options come in any order, each once.

  --key FILE     the file that holds the key: 16 to 32 bytes in hexadecimal,
                 white space allowed; zeros fill a shorter key (required)
  --office N     the office's number, 0 to 4294967295 (required)
  --serial N     the file's serial, 0 to 18446744073709551615 (required);
                 under one key, an office gives no two files the same serial
  --header FILE  a header that the tag covers too; empty if not given
  --mode M       with tag and check only: smac-1, smac-3/4, smac-1/2, or
                 smac-1x1 to smac-1x16, the last with that many streams; smac-1
                 if not given
  --bytes N      with tag only: how many bytes the tag has, from 2 to the
                 mode's largest (16; 20 in smac-3/4; 32 in smac-1/2); the
                 largest if not given
  --tag HEX      with check only: the tag to compare, in hexadecimal (required)
  --progress     with tag and check only: show on standard error how far FILE
                 has been read: in percent if it is above 256 MiB, in MiB if its
                 length is not known; nothing is shown without this option, on a
                 terminal either

'tag' prints one line: mode, bytes of FILE, office, serial, tag, name of FILE.
'check' prints 'same' or 'differs': the tag is the same only for the same file,
key, office, serial, header and mode. The exit status is 0 after a tag and
after 'same', and 1 after 'differs'. It is 1 after an error too, and then one
line on standard error says what is wrong.

A section holds at most 1048576 bytes, and has 16 bytes more than it holds; its
header, which is not part of it, has at most 1048576 bytes too. A section opens
only with the key, office, serial and header that it was sealed with. If it does
not open, OUT is left as it was. 'seal' and 'open' print one line: the word
'section', bytes that it holds, office, serial, name of OUT.

Try it in the repository's root:

  ./zukeroha tag --key examples/key.hex --office 7 --serial 42 examples/payroll.csv
  ./zukeroha check --tag b9c609c0320c7349e9cfa6c017a27c22 \\
    --key examples/key.hex --office 7 --serial 42 examples/payroll.csv
  ./zukeroha seal --key examples/key.hex --office 7 --serial 43 \\
    examples/payroll.csv /tmp/payroll.sealed
  ./zukeroha open --key examples/key.hex --office 7 --serial 43 \\
    /tmp/payroll.sealed /tmp/payroll.csv
";
