//! Options of NNG's own nngcat 1.5.2 that have another spelling here, or no replacement.

const LISTEN: &str = "--listen tcp://127.0.0.1:PORT";

const DIAL: &str = "--dial tcp://127.0.0.1:PORT";

const LISTEN_AT_PATH: &str = "--listen ipc://PATH";

const DIAL_PATH: &str = "--dial ipc://PATH";

const FORMATS: &str = "--raw, --ascii, --quoted, --hex, --msgpack or none of them";

const NOTHING: &str = "nothing stands in its place here";

/// What to write here in place of an option of NNG's own nngcat; `None` where it isn't one, or is spelt the same.
pub fn spelling_of(name: &str) -> Option<&'static str> {
    match name {
        "-A" => Some("--ascii"),
        "-Q" => Some("--quoted"),
        "-D" => Some("--data"),
        "-F" => Some("--file"),
        "-C" => Some("--count"),
        "-i" => Some("--interval"),
        "-h" => Some("--help"),
        "-V" => Some("--version"),
        "--bind" => Some("--listen"),
        "--connect" => Some("--dial"),
        "-L" | "--bind-local" => Some(LISTEN),
        "-l" | "--connect-local" => Some(DIAL),
        "-X" | "--bind-ipc" => Some(LISTEN_AT_PATH),
        "-x" | "--connect-ipc" => Some(DIAL_PATH),
        "--format" => Some(FORMATS),
        "-Z" | "--recv-maxsz" => Some("--recv-max"),
        _ => nothing_for(name),
    }
}

// The same for options without a replacement.
fn nothing_for(name: &str) -> Option<&'static str> {
    match name {
        "-d" | "--delay" => Some(NOTHING),
        "-q" | "--silent" | "-v" | "--verbose" => Some(NOTHING),
        "--compat" | "--async" | "--zt-home" => Some(NOTHING),
        "-k" | "--insecure" | "--cacert" => Some(NOTHING),
        "-E" | "--cert" | "--key" => Some(NOTHING),
        _ => None,
    }
}
