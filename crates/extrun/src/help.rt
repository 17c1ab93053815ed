//! What `--help` prints besides the commands.

/// What `--version` prints after the program's name.
pub(crate) const VERSION: &str = "1.0.0";

/// A plan with its run, the steps, and the exit statuses.
pub(crate) const AFTER_HELP: &str =
    r#"A plan, and its run: two tests that may run at once need one server. One of
them starts it, the other one finds it, and it is closed once at the end:

  $ cat server.toml
  [[key]]
  label = "server"

  [[node]]
  id = "[engine:x]"

  [[node]]
  id = "[engine:x]/[test:first]"
  mode = "concurrent"
  test = ["compute! server started up 1", "want server started"]

  [[node]]
  id = "[engine:x]/[test:second]"
  mode = "concurrent"
  test = ["compute! server started up 1", "want server started"]

  $ extrun run --lanes 2 server.toml
  [engine:x] successful closed 1
  [engine:x]/[test:first] successful closed 0
  [engine:x]/[test:second] successful closed 0
  tests 2 successful 2 aborted 0 failed 0 skipped 0
  computed 1 found 1 closed 1 close faults 0

The steps of a test or a callback, which the first one that does not pass ends:
  put KEY TEXT          stores a text
  put! KEY TEXT         the same; it is closed at the end of its context
  want KEY TEXT         passes where a look-up finds this text, here or above
  none KEY              passes where a look-up finds nothing
  remove KEY            removes what stands here
  compute KEY TEXT      looks up; stores the text here where nothing is found
  compute! KEY TEXT     the same; it is closed at the end of its context
  computefail KEY TEXT  the same with a factory that fails
  fail TEXT             fails
  abort TEXT            aborts
All but the last two may end with ' up N', 1 to 15: they act on the N-th context
above. docs/PLANS.md has all fields, steps, faults and reports; examples/ has
more plans.

Exit status:
  0  it is done, and no node failed
  1  a node failed, or a race or a mistake was found
  2  the command line, the plan or the id is refused
  3  reading, writing or memory failed, or a context could not be closed

Reports go to standard output. Why there is none goes to standard error, as a
line such as 'plan: P8 node 2', and a second one that says what that means,
unless --brief is given."#;
