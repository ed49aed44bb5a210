//! Where a book's reports go. A channel means a list of reports and its space, the number of further ones that it takes.
//!
//! `ReportList` keeps them as records in a lent slice, `ReportBytes` as frames in lent bytes, and `DropCopy` sends each to two channels.
#![tactic(auto)]

mod bytes;
mod channel;
mod copies;
mod list;

pub use bytes::{ReportBytes, frames_read_back, write_reports};
pub use channel::{Channel, put_all};
pub use copies::DropCopy;
pub use list::ReportList;

#[cfg(test)]
mod tests {
    use super::*;
    use types::Report;

    #[test]
    fn a_drop_copy_takes_as_many_as_the_smaller_channel(rt: HostRuntime) {
        let mut places = [Report::blank(); 3];
        let mut bytes = [0; 43];
        let first = ReportList::new(&mut places);
        let copy = ReportBytes::new(&mut bytes);
        let mut both = DropCopy { first, copy };
        assert_eq!(rt; both.space(), 2);
        assert!(rt; both.put(Report::halted()).is_ok());
        assert!(rt; put_all(&mut both, &[Report::halted(), Report::closed()]).is_err());
        assert_eq!(rt; both.space(), 1);
        assert!(rt; both.put(Report::closed()).is_ok());
        assert!(rt; both.put(Report::closed()).is_err());
    }

    #[test]
    fn frames_are_those_of_the_reports(rt: HostRuntime) {
        let mut bytes = [9; 50];
        assert!(rt; write_reports(&mut bytes, &[Report::halted(), Report::closed()]).is_ok());
        assert_eq!(rt; bytes[3], 6);
        assert_eq!(rt; bytes[22], 19);
        assert_eq!(rt; bytes[24], 7);
        assert_eq!(rt; bytes[42], 9);
    }
}
