// A text of modules. Lines that begin with `//:` give the environment, and `//= C D` shows what the modules do in at most C cycles, each net by at
// most D steps. After it `//: fill N` and `//= C D` show the same text from another number at power-up, until a line of a further text.

use crate::simulated::simulated;
use crate::table::{Found, Row, table};
use std::alloc::Global;
use std::mem;
use std::test::Fail;
use tapa_base::Text;
use vlog_design::{Design, Env};
use vlog_read::read;

/// The text so far, whether it is run, the environment of the top, the number at power-up, and the nets that are shown.
#[derive(Drop)]
pub(crate) struct Reader {
    text: String,
    is_run: bool,
    around: Env,
    fill: u128,
    rows: Vec<Row>,
}

fn nothing_around(alloc: Global) -> Env {
    Env {
        scalars: Vec::new(alloc),
        memories: Vec::new(alloc),
        ready: Vec::new(alloc),
    }
}

fn numbers(alloc: Global, words: &str) -> Result<Vec<u64>, Fail> {
    let mut all = Vec::new(alloc);
    for word in words.split_whitespace() {
        all.push(word.parse::<u64>()?)?;
    }
    Ok(all)
}

fn bits(alloc: Global, words: &str) -> Result<Vec<bool>, Fail> {
    let mut all = Vec::new(alloc);
    for n in numbers(alloc, words)? {
        all.push(n == 1)?;
    }
    Ok(all)
}

fn name(alloc: Global, word: &str) -> Result<Text, Fail> {
    if word.is_ascii() {
        Ok(Text::new(word.as_bytes().to_vec(alloc)?))
    } else {
        Err(Fail::new("no name"))
    }
}

// The first word of some, and the others.
fn first_of(words: &str) -> (&str, &str) {
    words.split_once(' ').unwrap_or((words, ""))
}

// A net, and after it the names of the instances on the way to it, the innermost first.
fn row(alloc: Global, words: &str) -> Result<Row, Fail> {
    let (net, instances) = first_of(words);
    let mut path = Vec::new(alloc);
    for instance in instances.split_whitespace() {
        path.push(name(alloc, instance)?)?;
    }
    Ok(Row {
        path,
        net: name(alloc, net)?,
        numbers: String::new(alloc),
    })
}

impl Reader {
    pub(crate) fn new(alloc: Global) -> Reader {
        Reader {
            text: String::new(alloc),
            is_run: false,
            around: nothing_around(alloc),
            fill: 0,
            rows: Vec::new(alloc),
        }
    }

    fn design(&self, alloc: Global) -> Result<Design, Fail> {
        if self.text.len() >= 4_294_967_295 {
            return Err(Fail::new("too long"));
        }
        match read(alloc, self.text.as_bytes()) {
            Ok(design) => Ok(design),
            Err(_) => Err(Fail::new("no design")),
        }
    }

    // Whether the simulator shows the same, where the number at power-up is one that it takes.
    fn beside(&self, alloc: Global, cycles: u32, shown: &str) -> Result<String, Fail> {
        let Ok(fill) = u64::try_from(self.fill) else {
            return Ok(String::new(alloc));
        };
        let simulated = simulated(alloc, self.design(alloc)?, &self.around, fill, cycles)?;
        if simulated.as_str() == shown {
            Ok(String::from_str(alloc, "simulated alike\n")?)
        } else {
            Ok(format!(in alloc; "simulated otherwise\n{simulated}")?)
        }
    }

    fn run(&mut self, alloc: Global, words: &str) -> Result<String, Fail> {
        let (cycles, depth) = first_of(words);
        let cycles = cycles.parse::<u32>()?;
        let depth = depth.parse::<u32>()?;
        let rows = mem::replace(&mut self.rows, Vec::new(alloc));
        self.is_run = true;
        let design = self.design(alloc)?;
        let Found { nets, rest } = table(
            alloc,
            &design,
            &self.around,
            self.fill,
            rows,
            cycles,
            depth,
        )?;
        let beside = self.beside(alloc, cycles, rest.as_str())?;
        Ok(format!(in alloc; "{beside}{nets}{rest}")?)
    }

    // What is to be kept for what is shown later.
    fn keep(&mut self, alloc: Global, words: &str) -> Result<(), Fail> {
        let (sort, words) = first_of(words);
        match sort {
            "fill" => self.fill = words.parse::<u128>()?,
            "scalars" => self.around.scalars = numbers(alloc, words)?,
            "memory" => self.around.memories.push(numbers(alloc, words)?)?,
            "ready" => self.around.ready.push(bits(alloc, words)?)?,
            "net" => self.rows.push(row(alloc, words)?)?,
            _ => return Err(Fail::new("no such line")),
        }
        Ok(())
    }

    // A further line of the text, or the first of another.
    fn put(&mut self, alloc: Global, text: &str) -> Result<(), Fail> {
        if self.is_run {
            self.text = String::new(alloc);
            self.around = nothing_around(alloc);
            self.is_run = false;
        }
        self.text.push_str(text)?;
        self.text.push('\n')?;
        Ok(())
    }

    /// What is shown after one more line.
    pub(crate) fn line(&mut self, alloc: Global, text: &str) -> Result<String, Fail> {
        let (mark, words) = first_of(text);
        match mark {
            "//" => (),
            "//=" => return self.run(alloc, words),
            "//:" => self.keep(alloc, words)?,
            _ => self.put(alloc, text)?,
        }
        Ok(String::new(alloc))
    }
}
