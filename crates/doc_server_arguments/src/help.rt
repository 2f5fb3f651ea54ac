//! What `--help` prints.

/// The commands, a line or two each, of at most 100 characters. It is printed without a line feed at its end.
pub const HELP: &str = "docs_server COMMAND, one of

listen CONFIG ADDR [--journal FILE | --follow FILE] [--log] [--status ADDR] [--watch SECONDS]
                                             serves the site to all who come
lint CONFIG [--journal FILE]                 tells what is wrong with the configuration, a line each
folders CONFIG                               tells which files of CONFIG's folders are bad
compact CONFIG --journal FILE                writes the journal anew, of the site its edits lead to
token NAME [--owner] [--groups a,b]          prints a row for a new reader, and the reader's token
token --hash                                 prints token_sha256 of the token on standard input
check CONFIG TOKEN                           prints the broken links that the token's reader sees
replay CONFIG                                lets the events of a script happen on the site
serve CONFIG ADDR COUNT TURNS                serves COUNT connections in TURNS passes at most
demo                                         answers requests on the demonstration site
render                                       renders CommonMark as HTML
examples FILE                                compares the examples of CommonMark's specification
--version                                    prints the version, and which journals are read
--help                                       prints this

ADDR is an IP address and a port, as 127.0.0.1:8080; for listen also localhost:8080.
--follow has it follow another server's journal, and take no edits.
--log tells each request on standard error; --log=json does so as JSON, an object a line.
--status has monitors answered at another address: /health and /metrics.
--watch has it reload where files of CONFIG have changed, which is looked after so many seconds.";
