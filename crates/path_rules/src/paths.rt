//! The path of a file that a target stands for.
ghost use Rattle.std.specs.Prelude.{◌≡◌, ◌≤◌, [], ◌∷◌, length, Option, option_map, drop};
ghost use Rattle.std.specs.List.{slice_split};
ghost use Rattle.path_rules.specs.Target.{is_slash, form_of};
ghost use Rattle.path_rules.specs.Route.{route_of, route_in, route_shown, raw_text};
ghost use Rattle.path_rules.specs.Walk.{route_behind};

use crate::path_buf::PathBuf8;
use crate::routes::Route;
use crate::segments::{add_folder, add_segment, first_folder};
use crate::target::{Form, form_of, raw_path};

/// Bytes of the longest path, without the name of an index.
const LONGEST_PATH: usize = 3_900;

/// The name of the file that stands for a folder.
const INDEX: &str = "index.html";

/// What a target stands for. The path of its file is left in `out`, and nothing where nothing
/// is served. It takes no memory.
#[tactic(auto, unfolding(crate::specs::Route::route_of))]
pub fn route(target: &[u8], out: &mut PathBuf8) -> Route
    ensures is { route_shown result out.new ≡ route_of target.now }
    ensures short { result ≡ Route.Path → length out.new ≤ LONGEST_PATH }
    ensures nothing { result ≡ Route.NotFound → out.new ≡ [] }
{
    out.clear();
    match behind_root(target) {
        Some(path) => walk(path, out),
        None => Route::NotFound,
    }
}

/// What follows the first `/` of the raw path.
fn behind_root(target: &[u8]) -> Option<&[u8]>
    ensures { option_map (λ path. path.now) result
        ≡ option_map (drop 1) (raw_text target.now (form_of target.now)) }
{
    if form_of(target) == Form::Neither {
        return None;
    }
    let (start, end) = raw_path(target);
    let raw = &target[start..end];
    if raw.is_empty() {
        Some(raw)
    } else {
        Some(&raw[1..])
    }
}

/// Writes the segments of a path one after the other.
fn walk(path: &[u8], out: &mut PathBuf8) -> Route
    requires { out.old ≡ [] }
    ensures is { route_shown result out.new ≡ route_in (slice_split is_slash path.now) }
    ensures short { result ≡ Route.Path → length out.new ≤ LONGEST_PATH }
    ensures nothing { result ≡ Route.NotFound → out.new ≡ [] }
{
    let mut rest = path;
    while let Some((folder, more)) = first_folder(rest) {
        if !add_folder(folder, out) {
            out.clear();
            return Route::NotFound;
        }
        rest = more;
    }
    finish(rest, out)
}

/// Writes the last segment, and the name of the index where it is empty.
fn finish(last: &[u8], out: &mut PathBuf8) -> Route
    ensures is { route_shown result out.new ≡ route_behind out.old (last.now ∷ []) }
    ensures short { result ≡ Route.Path → length out.new ≤ LONGEST_PATH }
    ensures nothing { result ≡ Route.NotFound → out.new ≡ [] }
{
    if !add_segment(last, out) || LONGEST_PATH < out.len() {
        out.clear();
        return Route::NotFound;
    }
    if last.is_empty() {
        out.add(INDEX);
        Route::Index
    } else {
        Route::Path
    }
}
