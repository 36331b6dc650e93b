// The one line that is printed.
use press_write::Pressed;
use sheet::Refusal;
use stdio::text;

// ok records 5 nodes 3 steps 1 peak 3 core 2
pub(crate) fn accepted(rt: &impl Print, pressed: Pressed) {
    let Pressed {
        records,
        nodes,
        steps,
        peak,
        marked,
        ..
    } = pressed;
    text::print_fmt(
        rt,
        format_args!(
            "ok records {records} nodes {nodes} steps {steps} peak {peak} core {marked}\n"
        ),
    );
}

// refused 9 at 2, and for 1 to 5 refused 3
pub(crate) fn refused(rt: &impl Print, refusal: Refusal) {
    let Refusal { why, at } = refusal;
    let number = sheet::number_of(why);
    if number <= 5 {
        return text::print_fmt(rt, format_args!("refused {number}\n"));
    }
    text::print_fmt(rt, format_args!("refused {number} at {}\n", at.0));
}
