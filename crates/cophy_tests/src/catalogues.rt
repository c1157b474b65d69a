//! Catalogues that the tests read.
use crate::scene::spread;
use adv_base::NoMemory;
use std::alloc::Global;
use std::process::Abort;

/// Catalogues by name. A line `t NAME` stands for a table of 1000 rows and 20 pages, `c NAME` for a column of whole
/// numbers of width 4 with 1000 values, `d NAME N` for the same with N values, `h NAME ENDS` for one with 1000 values and a
/// histogram, and `i NAME KEYS` for an index; every other line stands as it is.
const CATALOGUES: &str = r#"= T
t t
c c
= EMPTY
[[table]]
name = "t"
rows = 0
pages = 0
c c
= TI
t t
c c
c n
i t_c "c"
= HIST
t t
h c 0, 10, 20, 1000
i t_c "c"
= TC
t t
c c
c n
i t_c "c"
clustered = true
= CLC
t t
may_cluster = true
c c
c n
= CLAB
t t
may_cluster = true
c a
c b
= AB
t t
c a
c b
c n
i t_ab "a", "b"
= AG
t t
d a 100
c b
= XZ
t t
c x
c z
i t_xz "x", "z"
t u
c y
= CHAIN
t a
c k
c x
t b
c x
d y 10
t c
d y 10
c x
t d
c x
c k
= STAR
t hub
c k1
c k2
c k3
c k4
c k5
c k6
c k7
c k8
c k9
c k10
c k11
c k12
c k13
t p
c x
c y
c z
t q
c x
c y
c z
t r
c x
c y
c z
t s
c w
c x
c y
c z
= KNAP
t t
c c
t v
c d
c e
= ORDERS
[[table]]
name = "customer"
rows = 15000
pages = 400
[[table.column]]
name = "c_id"
kind = "int"
width = 8
distinct = 15000
[[table.column]]
name = "c_segment"
kind = "text"
width = 10
distinct = 5
[[table.column]]
name = "c_name"
kind = "text"
width = 25
distinct = 15000
i customer_pk "c_id"
unique = true
[[table]]
name = "orders"
rows = 150000
pages = 3000
[[table.column]]
name = "o_id"
kind = "int"
width = 8
distinct = 150000
[[table.column]]
name = "o_cust"
kind = "int"
width = 8
distinct = 10000
[[table.column]]
name = "o_date"
kind = "date"
width = 4
distinct = 2400
low = "1992-01-01"
high = "1998-12-31"
i orders_pk "o_id"
unique = true
[[table]]
name = "lineitem"
rows = 600000
pages = 15000
[[table.column]]
name = "l_order"
kind = "int"
width = 8
distinct = 150000
[[table.column]]
name = "l_price"
kind = "int"
width = 8
[[table.column]]
name = "l_ship"
kind = "date"
width = 4
"#;

/// What a line of a kind stands for, where `@` is its name and `#` what follows the name.
fn template_of(kind: &str) -> Option<&'static str> {
    match kind {
        "t" => Some("[[table]]\nname = \"@\"\nrows = 1000\npages = 20\n"),
        "c" => Some("[[table.column]]\nname = \"@\"\nkind = \"int\"\nwidth = 4\ndistinct = 1000\n"),
        "d" => { Some("[[table.column]]\nname = \"@\"\nkind = \"int\"\nwidth = 4\ndistinct = #\n") }
        "h" => Some(
            "[[table.column]]\nname = \"@\"\nkind = \"int\"\nwidth = 4\ndistinct = 1000\nbounds = [#]\n",
        ),
        "i" => Some("[[table.index]]\nname = \"@\"\nkeys = [#]\n"),
        _ => None,
    }
}

/// Adds a template's text.
fn fill(text: &mut String, template: &str, name: &str, more: &str) -> Result<(), NoMemory> {
    for letter in template.chars() {
        match letter {
            '@' => text.push_str(name)?,
            '#' => text.push_str(more)?,
            _ => text.push(letter)?,
        }
    }
    Ok(())
}

/// Adds what a line of the list stands for.
fn push_line(text: &mut String, line: &str) -> Result<(), NoMemory> {
    let (kind, rest) = line.split_once(' ').unwrap_or(("", ""));
    let (name, more) = rest.split_once(' ').unwrap_or((rest, ""));
    match template_of(kind) {
        Some(template) => fill(text, template, name, more),
        None => fill(text, "#\n", "", line),
    }
}

/// The text of the catalogue of a name, of the version that stands behind it, or of version 1; behind `=`, the name is the
/// text, in which `~` stands for a line feed.
pub(crate) fn catalogue(rt: &impl Abort, alloc: Global, name: &str) -> Vec<u8> {
    if let Some(text) = name.strip_prefix("=") {
        return spread(rt, alloc, text);
    }
    let (name, version) = name.split_once(' ').unwrap_or((name, "1"));
    let mut text = format!(in alloc; "version = {version}\n").expect(rt, "memory");
    let mut inside = false;
    for line in CATALOGUES.lines() {
        if let Some(next) = line.strip_prefix("= ") {
            inside = next == name;
        } else if inside {
            push_line(&mut text, line).expect(rt, "memory");
        }
    }
    text.into_bytes()
}
