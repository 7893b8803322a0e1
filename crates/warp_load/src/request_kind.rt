//! The eight kinds of request.
ghost use Rattle.std.specs.Prelude.{◌≡◌, ◌<◌, ◌^◌};
ghost use Rattle.warp_load.specs.LoadScripts.{answer_length};
ghost use Rattle.warp_load.specs.Requests.{request_bytes, request_kind};

/// A kind of request, by what it asks the load's folder for.
#[derive(Clone, Copy, Debug, PartialEq, Eq)]
pub enum RequestKind {
    /// GET of the folder's index.
    Index,
    /// GET of a file of 1,000 bytes.
    Text,
    /// HEAD of that file.
    TextHead,
    /// GET of a file of 40,000 bytes.
    Big,
    /// GET of a file that isn't there.
    Absent,
    /// GET of a folder without `/` at the end, with a query.
    Folder,
    /// POST with a chunked body.
    Posted,
    /// What a browser asks an index for, with all its fields.
    Browser,
}

const INDEX_REQUEST: &[u8] = b"GET / HTTP/1.1\r\nHost: a\r\n\r\n";

const TEXT_REQUEST: &[u8] = b"GET /a.txt HTTP/1.1\r\nHost: a\r\n\r\n";

const TEXT_HEAD_REQUEST: &[u8] = b"HEAD /a.txt HTTP/1.1\r\nHost: a\r\n\r\n";

const BIG_REQUEST: &[u8] = b"GET /big.bin HTTP/1.1\r\nHost: a\r\n\r\n";

const ABSENT_REQUEST: &[u8] = b"GET /nope HTTP/1.1\r\nHost: a\r\n\r\n";

const FOLDER_REQUEST: &[u8] = b"GET /sub?q=1 HTTP/1.1\r\nHost: a\r\n\r\n";

const POSTED_REQUEST: &[u8] = b"POST /a.txt HTTP/1.1\r\n\
    Host: a\r\n\
    Transfer-Encoding: chunked\r\n\
    \r\n\
    5\r\nhello\r\n0\r\n\r\n";

const BROWSER_REQUEST: &[u8] = b"GET /sub/ HTTP/1.1\r\n\
    Host: localhost:8080\r\n\
    User-Agent: Mozilla/5.0 (X11; Linux x86_64; rv:128.0) Gecko/20100101 Firefox/128.0\r\n\
    Accept: text/html,application/xhtml+xml,application/xml;q=0.9,image/avif,image/webp,*/*;q=0.8\r\n\
    Accept-Language: en-US,en;q=0.5\r\n\
    Accept-Encoding: gzip, deflate, br, zstd\r\n\
    Referer: http://localhost:8080/\r\n\
    Connection: keep-alive\r\n\
    Cookie: theme=dark; lang=en\r\n\
    Upgrade-Insecure-Requests: 1\r\n\
    Sec-Fetch-Dest: document\r\n\
    Sec-Fetch-Mode: navigate\r\n\
    Sec-Fetch-Site: same-origin\r\n\
    Sec-Fetch-User: ?1\r\n\
    Priority: u=0, i\r\n\
    \r\n";

/// How many bytes each kind's answer has where it doesn't close the connection.
const INDEX_ANSWER: u64 = 140;

const TEXT_ANSWER: u64 = 1141;

const TEXT_HEAD_ANSWER: u64 = 141;

const BIG_ANSWER: u64 = 40_141;

const ABSENT_ANSWER: u64 = 104;

const FOLDER_ANSWER: u64 = 133;

const POSTED_ANSWER: u64 = 140;

const BROWSER_ANSWER: u64 = 141;

impl RequestKind {
    /// The kind of a connection's request, both counted from 0, in the load of a seed.
    #[tactic(auto, unfolding(crate::specs::Requests::request_kind))]
    pub fn of(seed: u64, connection: u64, request: u64) -> RequestKind
        requires small { (seed < 2 ^ 32) × (connection < 2 ^ 32) × (request < 2 ^ 32) }
        ensures kind { result ≡ request_kind seed connection request }
    {
        match (seed + 5 * connection + 3 * request) % 8 {
            0 => RequestKind::Index,
            1 => RequestKind::Text,
            2 => RequestKind::TextHead,
            3 => RequestKind::Big,
            4 => RequestKind::Absent,
            5 => RequestKind::Folder,
            6 => RequestKind::Posted,
            _ => RequestKind::Browser,
        }
    }

    /// Its bytes, head and body.
    #[tactic(auto, unfolding(crate::specs::Requests::request_bytes))]
    pub fn bytes(self) -> &'static [u8]
        ensures bytes { result.now ≡ request_bytes self }
    {
        match self {
            RequestKind::Index => INDEX_REQUEST,
            RequestKind::Text => TEXT_REQUEST,
            RequestKind::TextHead => TEXT_HEAD_REQUEST,
            RequestKind::Big => BIG_REQUEST,
            RequestKind::Absent => ABSENT_REQUEST,
            RequestKind::Folder => FOLDER_REQUEST,
            RequestKind::Posted => POSTED_REQUEST,
            RequestKind::Browser => BROWSER_REQUEST,
        }
    }

    /// How many bytes its answer has, where that doesn't close the connection.
    #[tactic(auto, unfolding(crate::specs::LoadScripts::answer_length))]
    pub fn answer_length(self) -> u64
        ensures length { result ≡ answer_length self }
    {
        match self {
            RequestKind::Index => INDEX_ANSWER,
            RequestKind::Text => TEXT_ANSWER,
            RequestKind::TextHead => TEXT_HEAD_ANSWER,
            RequestKind::Big => BIG_ANSWER,
            RequestKind::Absent => ABSENT_ANSWER,
            RequestKind::Folder => FOLDER_ANSWER,
            RequestKind::Posted => POSTED_ANSWER,
            RequestKind::Browser => BROWSER_ANSWER,
        }
    }
}
