//! What the marks of reports tell, in words.
ghost use Rattle.std.specs.Prelude.{◌≡◌};
ghost use Rattle.report_lines.specs.Lines.{side_told, active_told, suppressed_told, reason_told, resume_told};

pub(crate) fn side_told(mark: u8) -> &'static str
    ensures { result.now ≡ side_told mark }
{
    match mark {
        1 => "buy",
        2 => "sell",
        _ => "-",
    }
}

pub(crate) fn active_told(mark: u8) -> &'static str
    ensures { result.now ≡ active_told mark }
{
    match mark % 4 {
        1 => "buyer",
        2 => "seller",
        _ => "-",
    }
}

pub(crate) fn suppressed_told(suppressed: bool) -> &'static str
    ensures { result.now ≡ suppressed_told suppressed }
{
    if suppressed { " suppressed" } else { "" }
}

pub(crate) fn reason_told(mark: u8) -> &'static str
    ensures { result.now ≡ reason_told mark }
{
    match mark {
        1 => "request",
        2 => "ioc",
        3 => "fok",
        4 => "stp",
        5 => "close",
        _ => "-",
    }
}

pub(crate) fn resume_told(mark: u8) -> &'static str
    ensures { result.now ≡ resume_told mark }
{
    if mark == 1 { " on resume" } else { "" }
}
