//! What the words of the command line ask for.

/// The most connections.
const MOST: usize = 1_000_000;

/// What the connections have done.
#[derive(Clone, Copy)]
pub(crate) enum Past {
    /// They have read nothing.
    New,
    /// Each has answered one request.
    Asked,
}

/// Which connections are held, and how many.
#[derive(Clone, Copy)]
pub(crate) struct Order {
    pub past: Past,
    pub count: usize,
}

/// The order that two words are, if they are one.
pub(crate) fn order_of(words: &Vec<String>) -> Option<Order> {
    let [past, count] = words.as_slice() else {
        return None;
    };
    let past = match past.as_str() {
        "new" => Past::New,
        "asked" => Past::Asked,
        _ => return None,
    };
    let count = count.as_str().parse::<usize>().ok()?;
    if count > MOST {
        return None;
    }
    Some(Order { past, count })
}
