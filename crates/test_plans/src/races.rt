//! Worked plans: which of them race, and where; and plans that may draw too many numbers.
use ext_model::Size;
use ext_plan_reading::read_plan_within;
use ext_races::{races, races_json, races_text};
use std::alloc::{AllocError, Global};

/// A root, a class A with the tests m and n and a class B with the test k, each concurrent.
const HEADS: [&str; 6] = [
    "[[node]]\nid = \"[e:x]\"\n",
    "[[node]]\nid = \"[e:x]/[c:A]\"\nmode = \"concurrent\"\n",
    "[[node]]\nid = \"[e:x]/[c:A]/[t:m]\"\nmode = \"concurrent\"\n",
    "[[node]]\nid = \"[e:x]/[c:A]/[t:n]\"\nmode = \"concurrent\"\n",
    "[[node]]\nid = \"[e:x]/[c:B]\"\nmode = \"concurrent\"\n",
    "[[node]]\nid = \"[e:x]/[c:B]/[t:k]\"\nmode = \"concurrent\"\n",
];

/// What is told of plans without races that have one report, and one but for two counts.
const ONE: &str = "no races: one report\n";

const NEAR: &str = "no races: one report but for computed and found\n";

/// The fields of these six nodes, and what is told of the plan's races.
const PLANS: [([&str; 6], &str); 41] = [
    // each test puts into its own context
    (
        [
            "",
            "",
            "test = ['put a x']",
            "test = ['put a y']",
            "",
            "test = []",
        ],
        ONE,
    ),
    // both put into the class
    (
        [
            "",
            "",
            "test = ['put a x up 1']",
            "test = ['put a x up 1']",
            "",
            "test = []",
        ],
        "put a of [e:x]/[c:A]/[t:m] and put a of [e:x]/[c:A]/[t:n] in [e:x]/[c:A]\n",
    ),
    // a look-up from below comes by the place of a put
    (
        [
            "",
            "",
            "test = ['want a x']",
            "test = ['put a x up 1']",
            "",
            "test = []",
        ],
        "want a of [e:x]/[c:A]/[t:m] and put a of [e:x]/[c:A]/[t:n] in [e:x]/[c:A]\n",
    ),
    // both look at a value that the class put before
    (
        [
            "",
            "before_all = [['put a x']]",
            "test = ['want a x']",
            "test = ['want a x']",
            "",
            "test = []",
        ],
        ONE,
    ),
    // a callback before each test of the class puts into it
    (
        [
            "",
            "before_each = [['put! a x up 1']]",
            "test = []",
            "test = []",
            "",
            "test = []",
        ],
        "put! a of [e:x]/[c:A]/[t:m] and put! a of [e:x]/[c:A]/[t:n] in [e:x]/[c:A]\n",
    ),
    // tests under two classes
    (
        [
            "",
            "",
            "test = ['remove a up 2']",
            "test = []",
            "",
            "test = ['none a']",
        ],
        "remove a of [e:x]/[c:A]/[t:m] and none a of [e:x]/[c:B]/[t:k] in [e:x]\n",
    ),
    // the callbacks of a class beside a test of the other
    (
        [
            "",
            "after_all = [['put a x up 1']]",
            "test = []",
            "test = []",
            "",
            "test = ['want a x']",
        ],
        "put a of [e:x]/[c:A] and want a of [e:x]/[c:B]/[t:k] in [e:x]\n",
    ),
    // computes of one text and word agree
    (
        [
            "",
            "",
            "test = ['compute! a x up 1']",
            "test = ['compute! a x up 1']",
            "",
            "test = []",
        ],
        NEAR,
    ),
    // a look-up behind a compute of its own call
    (
        [
            "",
            "",
            "test = ['compute! a x up 1', 'want a x']",
            "test = ['compute! a x up 1', 'want a x']",
            "",
            "test = []",
        ],
        NEAR,
    ),
    // it stands before the compute
    (
        [
            "",
            "",
            "test = ['want a x', 'compute a x up 1']",
            "test = ['compute a x up 1']",
            "",
            "test = []",
        ],
        "want a of [e:x]/[c:A]/[t:m] and compute a of [e:x]/[c:A]/[t:n] in [e:x]/[c:A]\n",
    ),
    // the compute is of another key
    (
        [
            "",
            "",
            "test = ['compute b x up 1', 'want a x']",
            "test = ['compute a x up 1']",
            "",
            "test = []",
        ],
        "want a of [e:x]/[c:A]/[t:m] and compute a of [e:x]/[c:A]/[t:n] in [e:x]/[c:A]\n",
    ),
    // behind a compute of another text it is the computes that race
    (
        [
            "",
            "",
            "test = ['compute a x up 1', 'want a x']",
            "test = ['compute a y up 1']",
            "",
            "test = []",
        ],
        "compute a of [e:x]/[c:A]/[t:m] and compute a of [e:x]/[c:A]/[t:n] in [e:x]/[c:A]\n",
    ),
    // a compute whose factory fails hides no look-up: its place is empty, and the other's factory
    // may run there
    (
        [
            "",
            "",
            "test = ['computefail a x up 1', 'none a']",
            "test = ['computefail a x up 1']",
            "",
            "test = []",
        ],
        "none a of [e:x]/[c:A]/[t:m] and computefail a of [e:x]/[c:A]/[t:n] in [e:x]/[c:A]\n",
    ),
    // behind a compute of a callback before the test
    (
        [
            "",
            "before_each = [['compute! a x up 1'], ['want a x']]",
            "test = ['want a x']",
            "before_each = [['want a x']]\ntest = ['want a x']",
            "",
            "test = []",
        ],
        NEAR,
    ),
    // behind a compute of a callback of its own container
    (
        [
            "",
            "before_all = [['compute! a x up 1'], ['want a x']]",
            "test = []",
            "test = []",
            "before_all = [['compute! a x up 1'], ['want a x']]",
            "test = []",
        ],
        NEAR,
    ),
    // a callback after the test runs also where those before it failed
    (
        [
            "",
            "",
            "before_each = [['compute a x up 1']]\ntest = []\nafter_each = [['want a x']]",
            "test = ['compute a x up 1']",
            "",
            "test = []",
        ],
        "want a of [e:x]/[c:A]/[t:m] and compute a of [e:x]/[c:A]/[t:n] in [e:x]/[c:A]\n",
    ),
    // and also where another one after it failed
    (
        [
            "",
            "",
            "test = []\nafter_each = [['want a x'], ['compute a x up 1']]",
            "test = ['compute a x up 1']",
            "",
            "test = []",
        ],
        "want a of [e:x]/[c:A]/[t:m] and compute a of [e:x]/[c:A]/[t:n] in [e:x]/[c:A]\n",
    ),
    // a compute of another test hides none
    (
        [
            "",
            "",
            "test = ['compute a x up 1']",
            "test = ['want a x']",
            "",
            "test = []",
        ],
        "compute a of [e:x]/[c:A]/[t:m] and want a of [e:x]/[c:A]/[t:n] in [e:x]/[c:A]\n",
    ),
    // from below the compute the look-up comes by a place that another test changes
    (
        [
            "",
            "",
            "test = ['compute a x up 2', 'want a x']",
            "test = ['put a y up 1']",
            "",
            "test = ['compute a x up 2', 'want a x']",
        ],
        "want a of [e:x]/[c:A]/[t:m] and put a of [e:x]/[c:A]/[t:n] in [e:x]/[c:A]\n",
    ),
    // computes of two texts don't
    (
        [
            "",
            "",
            "test = ['compute a x up 1']",
            "test = ['compute a y up 1']",
            "",
            "test = []",
        ],
        "compute a of [e:x]/[c:A]/[t:m] and compute a of [e:x]/[c:A]/[t:n] in [e:x]/[c:A]\n",
    ),
    // nor do computes of two contexts: one looks at the place of the other
    (
        [
            "",
            "",
            "test = ['compute a x']",
            "test = ['compute a x up 1']",
            "",
            "test = []",
        ],
        "compute a of [e:x]/[c:A]/[t:m] and compute a of [e:x]/[c:A]/[t:n] in [e:x]/[c:A]\n",
    ),
    // two values whose closes fail, under two keys of one context
    (
        [
            "",
            "",
            "test = ['put! a bad1 up 1']",
            "test = ['put! b bad2 up 1']",
            "",
            "test = []",
        ],
        "put! a of [e:x]/[c:A]/[t:m] and put! b of [e:x]/[c:A]/[t:n] in [e:x]/[c:A]\n",
    ),
    // one close fails: there is no order to tell
    (
        [
            "",
            "",
            "test = ['put! a bad1 up 1']",
            "test = ['put! b good up 1']",
            "",
            "test = []",
        ],
        ONE,
    ),
    // two closes of one context fail, one after the other
    (
        [
            "",
            "",
            "test = ['put! a bad1', 'put! b bad2']",
            "test = []",
            "",
            "test = []",
        ],
        ONE,
    ),
    // two factories of one place that fail alike
    (
        [
            "",
            "",
            "test = ['computefail a x up 1']",
            "test = ['computefail a x up 1']",
            "",
            "test = []",
        ],
        ONE,
    ),
    // the values of A are computed
    (
        [
            "before_all = [['put! a bad1']]",
            "",
            "test = ['compute b y up 1', 'computefail a x up 1', 'put! c bad3']",
            "test = ['compute b y up 1', 'computefail a x up 1', 'put! c bad4', 'put! d bad3']",
            "before_all = [['put! a bad2']]",
            "test = []",
        ],
        NEAR,
    ),
    // locks say that one goes first, and not which
    (
        [
            "",
            "",
            "locks = ['READ_WRITE db']\ntest = ['put a x up 1']",
            "locks = ['READ db']\ntest = ['want a x']",
            "",
            "test = []",
        ],
        "put a of [e:x]/[c:A]/[t:m] and want a of [e:x]/[c:A]/[t:n] in [e:x]/[c:A]: a lock keeps them apart, not in order\n",
    ),
    // so does a lock that the class names for its tests
    (
        [
            "",
            "locks = ['READ_WRITE db']",
            "test = ['put a x up 1']",
            "test = ['want a x']",
            "",
            "test = []",
        ],
        "put a of [e:x]/[c:A]/[t:m] and want a of [e:x]/[c:A]/[t:n] in [e:x]/[c:A]: a lock keeps them apart, not in order\n",
    ),
    // an isolated test is kept apart from all
    (
        [
            "",
            "",
            "isolated = true\ntest = ['put a x up 2']",
            "test = []",
            "",
            "test = ['want a x']",
        ],
        "put a of [e:x]/[c:A]/[t:m] and want a of [e:x]/[c:B]/[t:k] in [e:x]: a lock keeps them apart, not in order\n",
    ),
    // locks to read keep nobody apart, nor do locks of two names
    (
        [
            "",
            "locks = ['READ db']",
            "locks = ['READ_WRITE log']\ntest = ['put a x up 1']",
            "locks = ['READ_WRITE net']\ntest = ['want a x']",
            "",
            "test = []",
        ],
        "put a of [e:x]/[c:A]/[t:m] and want a of [e:x]/[c:A]/[t:n] in [e:x]/[c:A]\n",
    ),
    // nor is a class kept apart, as it takes no locks
    (
        [
            "",
            "isolated = true\nbefore_all = [['put a x up 1']]",
            "test = []",
            "test = []",
            "locks = ['READ_WRITE db']",
            "test = ['want a x']",
        ],
        "put a of [e:x]/[c:A] and want a of [e:x]/[c:B]/[t:k] in [e:x]\n",
    ),
    // one finds what the class computed, and so does the other's compute
    (
        [
            "",
            "before_all = [['compute a x']]",
            "test = ['want a x']",
            "test = ['compute a x up 1']",
            "",
            "test = []",
        ],
        ONE,
    ),
    // the other computes another value
    (
        [
            "",
            "before_all = [['compute a x']]",
            "test = ['want a x']",
            "test = ['compute a y up 1']",
            "",
            "test = []",
        ],
        "want a of [e:x]/[c:A]/[t:m] and compute a of [e:x]/[c:A]/[t:n] in [e:x]/[c:A]\n",
    ),
    // a step removes the key, but elsewhere
    (
        [
            "",
            "before_all = [['compute a x']]",
            "test = ['want a x']",
            "test = ['compute a x up 1']",
            "",
            "test = ['remove a']",
        ],
        ONE,
    ),
    // or below
    (
        [
            "",
            "before_all = [['compute a x']]",
            "test = ['want a x', 'remove a']",
            "test = ['compute a x up 1']",
            "",
            "test = []",
        ],
        ONE,
    ),
    // or when all that look it up have ended
    (
        [
            "after_all = [['remove a']]",
            "before_all = [['compute a x up 1']]",
            "test = ['want a x']",
            "test = []",
            "before_all = [['compute a x up 1']]",
            "test = []",
        ],
        NEAR,
    ),
    // so does the class itself
    (
        [
            "",
            "before_all = [['compute a x']]\nafter_all = [['remove a']]",
            "test = ['want a x']",
            "test = ['compute a x up 1']",
            "",
            "test = []",
        ],
        ONE,
    ),
    // the class removes it before its tests
    (
        [
            "",
            "before_all = [['compute a x', 'remove a']]",
            "test = ['want a x']",
            "test = ['compute a x up 1']",
            "",
            "test = []",
        ],
        "want a of [e:x]/[c:A]/[t:m] and compute a of [e:x]/[c:A]/[t:n] in [e:x]/[c:A]\n",
    ),
    // a test removes it there
    (
        [
            "",
            "before_all = [['compute a x']]",
            "test = ['want a x', 'remove a up 1']",
            "test = ['compute a x up 1']",
            "",
            "test = []",
        ],
        "remove a of [e:x]/[c:A]/[t:m] and compute a of [e:x]/[c:A]/[t:n] in [e:x]/[c:A]\nwant a of [e:x]/[c:A]/[t:m] and compute a of [e:x]/[c:A]/[t:n] in [e:x]/[c:A]\n",
    ),
    // a callback after a class runs even if that before it failed
    (
        [
            "",
            "before_all = [['compute a x up 1']]\nafter_all = [['want a x']]",
            "test = []",
            "test = []",
            "before_all = [['compute a x up 1']]",
            "test = []",
        ],
        "want a of [e:x]/[c:A] and compute a of [e:x]/[c:B] in [e:x]\n",
    ),
    // what the class computed may stand in the root
    (
        [
            "",
            "before_all = [['compute a x']]",
            "test = ['want a x']",
            "test = []",
            "",
            "test = ['compute a x up 2']",
        ],
        "compute a of [e:x]/[c:A] and compute a of [e:x]/[c:B]/[t:k] in [e:x]\nwant a of [e:x]/[c:A]/[t:m] and compute a of [e:x]/[c:B]/[t:k] in [e:x]\n",
    ),
];

/// What is told of a plan's races: by lines, and as JSON without its line feed.
#[derive(Drop)]
struct RaceTexts {
    lines: String,
    object: Vec<u8>,
}

/// Plans whose races were worked out by hand are told with exactly these.
/// Tests `races`, `races_text`, `Word::text`, `Word::changes`, `Word::looks_along`,
/// `Word::computes`, `Word::gives_value`, `Word::leaves_closeable` and `Word::has_text`.
#[test]
fn races_of_worked_plans(rt: HostRuntime) -> Result<(), AllocError> {
    for (fields, wanted) in PLANS {
        let texts = texts_of(rt.alloc(), &fields)?;
        assert_eq!(rt; texts.lines.as_str(), wanted);
    }
    Ok(())
}

/// What is told of a plan of these fields.
fn texts_of(alloc: Global, fields: &[&str; 6]) -> Result<RaceTexts, AllocError> {
    let text = plan_text(alloc, fields)?;
    texts_of_plan(alloc, text.as_str(), Size::Usual)
}

/// The plan of these fields.
fn plan_text(alloc: Global, fields: &[&str; 6]) -> Result<String, AllocError> {
    let mut text = String::new(alloc);
    for (head, more) in HEADS.iter().zip(fields.iter()) {
        text.push_str(head)?;
        text.push_str(more)?;
        text.push_str("\n")?;
    }
    Ok(text)
}

/// What is told of the races of this plan, which is so large at most.
fn texts_of_plan(alloc: Global, text: &str, size: Size) -> Result<RaceTexts, AllocError> {
    match read_plan_within(alloc, text, size) {
        Ok(plan) => {
            let found = races(alloc, &plan, 21)?;
            let mut object = races_json(alloc, &plan, &found)?;
            let _ = object.pop();
            Ok(RaceTexts {
                lines: races_text(alloc, &plan, &found)?,
                object,
            })
        }
        Err(_) => Ok(RaceTexts {
            lines: String::from_str(alloc, "refused")?,
            object: Vec::new(alloc),
        }),
    }
}

/// The fields of the six nodes, and the JSON that tells of the plan's races.
const OBJECTS: [([&str; 6], &str); 4] = [
    // a key with a mark that has to be escaped
    (
        [
            "",
            "",
            "test = ['put a\"b x up 1']",
            "test = ['want a\"b x']",
            "",
            "test = []",
        ],
        r#"{"races":[{"first":{"node":"[e:x]/[c:A]/[t:m]","word":"put","key":"a\"b"},"second":{"node":"[e:x]/[c:A]/[t:n]","word":"want","key":"a\"b"},"context":"[e:x]/[c:A]","locked":false}],"more":false,"proved":null,"limit":null}"#,
    ),
    // tests that a lock keeps apart
    (
        [
            "",
            "locks = ['READ_WRITE db']",
            "test = ['put a x up 1']",
            "test = ['want a x']",
            "",
            "test = []",
        ],
        r#"{"races":[{"first":{"node":"[e:x]/[c:A]/[t:m]","word":"put","key":"a"},"second":{"node":"[e:x]/[c:A]/[t:n]","word":"want","key":"a"},"context":"[e:x]/[c:A]","locked":true}],"more":false,"proved":null,"limit":null}"#,
    ),
    (
        ["", "", "test = ['put a x']", "test = []", "", "test = []"],
        r#"{"races":[],"more":false,"proved":"one report","limit":null}"#,
    ),
    (
        [
            "",
            "",
            "test = ['compute a x up 1']",
            "test = ['compute a x up 1']",
            "",
            "test = []",
        ],
        r#"{"races":[],"more":false,"proved":"one report but for computed and found","limit":null}"#,
    ),
];

/// Plans with a race, with one that a lock keeps apart, with none, and with computes that share a
/// value are told as JSON, with a mark in a key escaped.
/// Tests `races_json`.
#[test]
fn races_as_json(rt: HostRuntime) -> Result<(), AllocError> {
    for (fields, wanted) in &OBJECTS {
        let texts = texts_of(rt.alloc(), fields)?;
        assert_eq!(rt; texts.object.as_slice(), wanted.as_bytes());
    }
    Ok(())
}

/// A plan of 255 tests, before each of which so many steps put.
fn plan_of_puts(alloc: Global, count: u32) -> Result<String, AllocError> {
    let mut text = String::from_str(alloc, "[[node]]\nid = '[e:x]'\nbefore_each = [[")?;
    for i in 0..count {
        let key = i % 64;
        write!(text, "'put k{key} x',")?;
    }
    text.push_str("]]\n")?;
    for i in 0..255 {
        write!(text, "[[node]]\nid = '[e:x]/[t:{i}]'\ntest = []\n")?;
    }
    Ok(text)
}

/// The JSON of plans without races that have one report.
const ONE_OBJECT: &str = r#"{"races":[],"more":false,"proved":"one report","limit":null}"#;

/// How many steps put and how large their plan may be, with what is told of its races by lines and
/// as JSON.
const PUTS: [(u32, Size, &str, &str); 3] = [
    (257, Size::Usual, ONE, ONE_OBJECT),
    (
        258,
        Size::Usual,
        "the steps may draw more than 65535 numbers\n",
        r#"{"races":null,"more":null,"proved":null,"limit":{"of":"numbers","most":65535}}"#,
    ),
    (258, Size::Large, ONE, ONE_OBJECT),
];

/// Steps that may draw more numbers than a plan of the usual size has are told as that limit, and
/// in a large plan they are not.
/// Tests `races`, `races_text` and `races_json`.
#[test]
fn numbers_are_few_for_the_size(rt: HostRuntime) -> Result<(), AllocError> {
    for (count, size, wanted, object) in &PUTS {
        let plan = plan_of_puts(rt.alloc(), *count)?;
        let texts = texts_of_plan(rt.alloc(), plan.as_str(), *size)?;
        assert_eq!(rt; texts.lines.as_str(), *wanted);
        assert_eq!(rt; texts.object.as_slice(), object.as_bytes());
    }
    Ok(())
}
