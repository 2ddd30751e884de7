//! Laws of what a link over TCP or IPC shows.
ghost use Rattle.std.specs.Prelude.{◌≡◌, ◌≤◌, ◌<◌, ◌^◌, ◌++◌, ℕ, List, [], length};
ghost use Rattle.sp_base.specs.Outside.{IsPrefix};
ghost use Rattle.sp_base.specs.SpTcp.{shows, text, Fit, IsLongest, IsBytes};
ghost use Rattle.sp_base.specs.SpIpc.{marked_text, marked_shows, ipc_mark, ipc_text, ipc_shows, IsLongestMarked, IsBadNext, IsIpcBad};

/// What is shown is the longest list of bodies, each of at most `max` bytes, whose text is a prefix of the
/// bytes; where the bytes do not begin with the greeting it is empty.
pub fn shown_is_longest()
    ensures { (role max : ℕ) (s : List ℕ) → max < 2 ^ 64 → IsBytes s → IsLongest role max s (shows role max s) }
{}

/// Reading the text of bodies gives them back.
pub fn text_reads_back()
    ensures { (role max : ℕ) (bodies : List (List ℕ)) → max < 2 ^ 64 → Fit max bodies → shows role max (text role bodies) ≡ bodies }
{}

/// Two lists of bodies never have one text.
pub fn texts_are_apart()
    ensures { (role max : ℕ) (xs ys : List (List ℕ)) → max < 2 ^ 64 → Fit max xs → Fit max ys → text role xs ≡ text role ys → xs ≡ ys }
{}

/// What is shown stays shown when more bytes come.
pub fn shown_grows()
    ensures { (role max : ℕ) (s more : List ℕ) → max < 2 ^ 64 → IsBytes s → IsPrefix (shows role max s) (shows role max (s ++ more)) }
{}

/// As `shown_is_longest`, over IPC.
pub fn ipc_shown_is_longest()
    ensures { (role max : ℕ) (s : List ℕ) → max < 2 ^ 64 → IsBytes s → IsLongestMarked ipc_mark role max s (ipc_shows role max s) }
{}

/// As `text_reads_back`, over IPC.
pub fn ipc_text_reads_back()
    ensures { (role max : ℕ) (bodies : List (List ℕ)) → max < 2 ^ 64 → Fit max bodies → ipc_shows role max (ipc_text role bodies) ≡ bodies }
{}

/// As `texts_are_apart`, over IPC.
pub fn ipc_texts_are_apart()
    ensures { (role max : ℕ) (xs ys : List (List ℕ)) → max < 2 ^ 64 → Fit max xs → Fit max ys → ipc_text role xs ≡ ipc_text role ys → xs ≡ ys }
{}

/// As `shown_grows`, over IPC.
pub fn ipc_shown_grows()
    ensures { (role max : ℕ) (s more : List ℕ) → max < 2 ^ 64 → IsBytes s → IsPrefix (ipc_shows role max s) (ipc_shows role max (s ++ more)) }
{}

/// After whole messages, a byte other than 01 or a size above the limit is bad at once, and nothing more is shown.
pub fn ipc_bad_is_met()
    ensures { (role max : ℕ) (bodies : List (List ℕ)) (rest : List ℕ) → max < 2 ^ 64 → Fit max bodies → IsBadNext max rest → (ipc_shows role max (ipc_text role bodies ++ rest) ≡ bodies) × IsIpcBad role max (ipc_text role bodies ++ rest) }
{}

/// With no bytes before each size it is SP over TCP.
pub fn tcp_has_no_mark()
    ensures text { (role : ℕ) (bodies : List (List ℕ)) → marked_text [] role bodies ≡ text role bodies }
    ensures shows { (role max : ℕ) (s : List ℕ) → marked_shows [] role max s ≡ shows role max s }
{}
