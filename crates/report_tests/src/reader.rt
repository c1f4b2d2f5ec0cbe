// The lines of `stdin`. A program ends before `//run`, which runs it, and `//trace I N / TOKENS / TOKENS`, which shows the ticks of instance
// I on the tokens of each stream, with at most N tests each time that a loop is executed. `//body KIND STATEMENTS` runs a program by itself:
// a task that writes the stream q, and one that reads it.
use crate::runs::{run_beside, trace_text};
use std::alloc::{AllocError, Global};
use std::sync::Wait;
use std::test::Fail;
use std::thread::Threads;

/// The program so far, and whether it was run.
#[derive(Drop)]
pub(crate) struct Reader {
    text: String,
    is_run: bool,
}

// The program of a kind and statements.
fn with_body(alloc: Global, words: &str) -> Result<String, AllocError> {
    let (kind, body) = words.split_once(' ').unwrap_or((words, ""));
    format!(in alloc;
        "void P(tapa::ostream<{kind}>& q) {{ {body} q.close(); }}
void C(tapa::istream<{kind}>& q) {{ TAPA_WHILE_NOT_EOT(q) {{ q.read(); }} q.open(); }}
void T() {{ tapa::stream<{kind}> q; tapa::task().invoke(P, q).invoke(C, q); }}
"
    )
}

impl Reader {
    pub(crate) fn new(alloc: Global) -> Reader {
        Reader {
            text: String::new(alloc),
            is_run: false,
        }
    }

    // A further line of the program, or the first of another.
    fn put(&mut self, alloc: Global, line: &str) -> Result<(), AllocError> {
        if self.is_run {
            self.text = String::new(alloc);
            self.is_run = false;
        }
        self.text.push_str(line)?;
        self.text.push('\n')
    }

    /// Returns what is shown after one more line.
    pub(crate) fn line<R: Threads + Wait + Sync>(
        &mut self,
        rt: &R,
        alloc: Global,
        line: &str,
    ) -> Result<String, Fail> {
        let (mark, words) = line.split_once(' ').unwrap_or((line, ""));
        match mark {
            "//" => return Ok(String::new(alloc)),
            "//body" => return run_beside(rt, alloc, with_body(alloc, words)?.as_str()),
            "//run" => self.is_run = true,
            "//trace" => return trace_text(alloc, self.text.as_str(), words),
            _ => {
                self.put(alloc, line)?;
                return Ok(String::new(alloc));
            }
        }
        run_beside(rt, alloc, self.text.as_str())
    }
}
