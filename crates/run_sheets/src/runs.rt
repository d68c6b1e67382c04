//! The program whose runs are tried.

ghost use denote.Param.Send.{IsSync};

use crate::{Came, Fault, Given};
use std::alloc::Global;
use std::thread::Threads;

/// A program that can be run over what a case gives.
pub trait Runs {
    /// Whether its wire takes frames in runs: then the bytes that connections took must come, whatever pieces they are in.
    fn takes_runs(&self) -> bool {
        false
    }

    /// Runs it, and tells what came.
    fn run_case<T: Threads + Sync>(
        &self,
        threads: &T,
        alloc: Global,
        given: Given,
    ) -> Result<Came, Fault>
        requires { IsSync T.row };
}
